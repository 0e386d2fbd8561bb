// Reads a question from standard input and prints the answer in seven lines.
// Where the question cannot be read, nothing is answered; this, and an answer that cannot be written, is said on standard error.
#![tactic(auto)]

use input::read_input;
use std::io;
use text::respond::respond;

fn main(rt: HostRuntime) -> io::Result<()> {
    let mut question = [0u8; 65537];
    let mut lines = [0u8; 192];
    let input = read_input(&rt, &mut question);
    if input.failed {
        return eprintln!(rt; "gripcheck: the question could not be read");
    }
    let n = input.bytes;
    let k = respond(&question[..n], &mut lines);
    if rt.write_all(&lines[..k]).is_err() {
        return eprintln!(rt; "gripcheck: the answer could not be written");
    }
    Ok(())
}
