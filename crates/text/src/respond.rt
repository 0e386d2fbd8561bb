// The answer to a text.
ghost use Rattle.std.specs.Prelude.{◌≡◌, ◌&&◌, ◌≤◌, length, take};
ghost use Rattle.text.specs.Question.{reading};
ghost use Rattle.text.specs.Cursor.{Small, question_in};
ghost use Rattle.text.specs.Respond.{fitting, printed_in, lines_in, AnswersReading, SaysAnswer};
ghost use Rattle.text.specs.Printable.{Written, is_number, is_printable, numbered_paper};
ghost use Rattle.text.specs.Counts.{Counts};

use crate::answer::{Answer, Numbered};
use crate::cursor::Asked;
use crate::print::{write, write_refused};
use crate::reading::{read, zeros};
use geometry::contains::curve_could_contain;
use math::floats::is_nan;
use model::contains::Found;
use model::subdivide;

// The answer of the search to the question whose numbers stand in `lines`: the resolution, the knots, the points, the box.
// It keeps every promise of the search.
fn ask_lines(asked: Asked, lines: &[f64; 303]) -> Found
    ensures { AnswersReading (question_in asked lines.now) result }
{
    let mut work = zeros::<8192>();
    let s = asked.sizes;
    let d = asked.doubles(lines);
    curve_could_contain(
        asked.rev,
        s.dim,
        s.degree,
        s.count,
        d.knots,
        d.points,
        d.sides,
        d.resolution,
        asked.nodes,
        &mut work,
    )
}

// The answer to a text: a refusal, or the answer of the search with its promises, on a work area of 8,192 numbers.
pub fn answered(text: &[u8]) -> Found
    ensures { AnswersReading (reading text.now) result }
{
    let mut lines = zeros::<303>();
    match read(text, &mut lines) {
        Ok(asked) => ask_lines(asked, &lines),
        Err(refused) => Found::Refused(refused, subdivide::Counts::NONE),
    }
}

// What the program writes for a text, written to the front of `out`. The result is how many bytes that is.
// Where `out` has fewer than 192 bytes nothing is written, and the result is 0.
// For a text that reads as a call, what is written are the seven lines of an answer that keeps every promise of the search,
// demand 3 among them.
pub fn respond(text: &[u8], out: &mut [u8]) -> usize
    ensures written { let l = out.old in
        Written l 0 (fitting (length l) text.now) out.new result }
    ensures promises { 192 ≤ length out.old → SaysAnswer text.now (take result out.new) }
    ensures within { Counts result out.new }
{
    if out.len() < 192 {
        return 0;
    }
    write(answered(text), out)
}

// Neither is a NaN.
fn are_numbers(x: f64, y: f64) -> bool
    ensures { result ≡ (is_number x && is_number y) }
{
    !is_nan(x) && !is_nan(y)
}

// Neither bound of an answer is a NaN.
fn is_printable(f: Found) -> bool
    ensures { result ≡ is_printable f }
{
    match f {
        Found::Enclosed(lo, hi, _) => are_numbers(lo, hi),
        _ => true,
    }
}

// The lines of an answer of the search.
fn print_found(f: Found, out: &mut [u8]) -> usize
    ensures written { let l = out.old in
        Written l 0 (printed_in (length l) f) out.new result }
    ensures within { Counts result out.new }
{
    if out.len() < 192 {
        return 0;
    }
    if is_printable(f) {
        return write(f, out);
    }
    0
}

// Those of a refusal by a number.
fn print_numbered(refused: Numbered, out: &mut [u8]) -> usize
    ensures written { let l = out.old in
        Written l 0 (lines_in (length l) (numbered_paper refused.number refused.counts)) out.new result }
    ensures within { Counts result out.new }
{
    if out.len() < 192 {
        return 0;
    }
    write_refused(refused.number, refused.counts, out)
}

// The seven lines of an answer, written to the front of `out`: of one of the search, or of a refusal by any number
// (`Numbered`). The result is how many bytes they are.
// Where `out` has fewer than 192 bytes, or a bound is a NaN, which no answer of the search has, nothing is written, and the
// result is 0.
pub fn print_answer<A: Answer>(answer: A, out: &mut [u8]) -> usize
    ensures written { let l = out.old in
        Written l 0 (lines_in (length l) (A.on_paper answer)) out.new result }
    ensures within { Counts result out.new }
{
    match answer.found() {
        Ok(f) => print_found(f, out),
        Err(refused) => print_numbered(refused, out),
    }
}
