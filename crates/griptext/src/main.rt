// Reads a text from standard input and prints its one form.
// Of a text that is refused nothing is printed, and the number is said on standard error; so is a text that cannot be
// read, or a form that cannot be written.
#![tactic(auto)]

ghost use Rattle.text.specs.Form.{Within};

use geometry::answers;
use input::read_input;
use model::refusal::Refusal;
use std::io;
use text::rewrite::rewrite;

// Says on standard error by what the text is refused.
fn say_refused(rt: &impl Eprint, refused: Refusal) -> io::Result<()> {
    let number = answers::number(refused);
    eprintln!(rt; "griptext: refused-{number}")
}

// Prints what the writer gave, which stands at the front of `form`.
fn print(rt: &(impl Print + Eprint), form: &[u8], given: Result<usize, Refusal>) -> io::Result<()>
    requires { Within given form.now }
{
    match given {
        Err(refused) => say_refused(rt, refused),
        Ok(n) => {
            if rt.write_all(&form[..n]).is_err() {
                return eprintln!(rt; "griptext: the form could not be written");
            }
            Ok(())
        }
    }
}

fn main(rt: HostRuntime) -> io::Result<()> {
    let mut text = [0u8; 65537];
    let mut form = [0u8; 5405];
    let input = read_input(&rt, &mut text);
    if input.failed {
        return eprintln!(rt; "griptext: the text could not be read");
    }
    let n = input.bytes;
    let given = rewrite(&text[..n], &mut form);
    print(&rt, &form, given)
}
