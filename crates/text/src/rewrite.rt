// The one form of a text.
ghost use Rattle.std.specs.Prelude.{◌≡◌, true, cond, ◌+◌, ◌*◌, ◌≤◌, length, leb, T};
ghost use Rattle.lists.specs.Lists.{all};
ghost use Rattle.text.specs.Bytes.{bytes};
ghost use Rattle.text.specs.Counts.{Counts};
ghost use Rattle.model.specs.Numbers.{code_of};
ghost use Rattle.text.specs.Cursor.{Small, Long, numbers_in, question_in};
ghost use Rattle.text.specs.Printable.{Written, is_number, AllNumbers};
ghost use Rattle.text.specs.Form.{small_text, values_text, line_text, lines_text, sizes_text, limits_text, shape_text, form};
ghost use Rattle.text.specs.Form.{refusal_of, accepted_by, accepted, count_for, output_for, Rewrites, Within};

use crate::cursor::{Asked, Doubles, Sizes};
use crate::print::{put_count, put_double, put_word};
use crate::question::behind;
use crate::reading::{read, zeros};
use geometry::call::question_refusal;
use geometry::contains::positive_zero;
use model::refusal::Refusal;

// ---- lines

// A line of a key and a small number, from `at` on. As of all that write here, the result is where the rest begins.
fn put_small(out: &mut [u8], at: usize, key: &[u8], n: usize) -> usize
    requires { at + length key.now + 21 ≤ length out.old }
    ensures { let k = key.now in let l = out.old in let m = out.new in
        Written l at (small_text k n) m result × (result ≤ at + length k + 21) }
{
    let i = put_count(out, at, key, n as u64);
    put_word(out, i, b"\n")
}

// These doubles, from `at` on.
fn put_values(out: &mut [u8], at: usize, xs: &[f64]) -> usize
    requires in_bounds { at + 17 * length xs.now ≤ length out.old }
    requires all_numbers { all is_number xs.now ≡ true }
    ensures { let v = xs.now in
        Written out.old at (values_text v) out.new result × (result ≡ at + 17 * length v) }
{
    let n = xs.len();
    for i in 0..n {
        let x = xs[i];
        let y = positive_zero(x);
        let k = put_double(out, at + 17 * i, y);
        out[k] = behind(n - i - 1);
    }
    at + 17 * n
}

// A line of a key and of these doubles, from `at` on.
fn put_line(out: &mut [u8], at: usize, key: &[u8], xs: &[f64]) -> usize
    requires in_bounds { at + length key.now + 17 * length xs.now ≤ length out.old }
    requires all_numbers { all is_number xs.now ≡ true }
    ensures { let k = key.now in let v = xs.now in
        Written out.old at (line_text k v) out.new result × (result ≡ at + length k + 17 * length v) }
{
    let i = put_word(out, at, key);
    put_values(out, i, xs)
}

// The lines of k points, of n doubles each, from `at` on.
fn put_points(out: &mut [u8], at: usize, xs: &[f64], n: usize, k: usize) -> usize
    requires in_bounds { (at + (6 + 17 * n) * k ≤ length out.old) × (n * k ≤ length xs.now) }
    requires all_numbers { all is_number xs.now ≡ true }
    ensures { let w = lines_text (bytes "point=") n k xs.now in
        Written out.old at w out.new result × (result ≡ at + (6 + 17 * n) * k) }
{
    let mut p = at;
    for i in 0..k {
        p = put_line(out, p, b"point=", &xs[n * i..n * i + n]);
    }
    p
}

// ---- the text

// The lines of the revision and the sizes, at the front.
fn put_sizes(out: &mut [u8], rev: usize, s: Sizes) -> usize
    requires { 105 ≤ length out.old }
    ensures { Written out.old 0 (sizes_text rev s) out.new result × (result ≤ 105) }
{
    let i = put_small(out, 0, b"rev=", rev);
    let j = put_small(out, i, b"dim=", s.dim);
    let k = put_small(out, j, b"degree=", s.degree);
    put_small(out, k, b"count=", s.count)
}

// The line of the nodes and that of the resolution, from `at` on.
fn put_limits(out: &mut [u8], at: usize, nodes: usize, resolution: f64) -> usize
    requires { (at + 55 ≤ length out.old) × T (is_number resolution) }
    ensures { Written out.old at (limits_text nodes resolution) out.new result × (result ≤ at + 55) }
{
    let i = put_small(out, at, b"nodes=", nodes);
    put_line(out, i, b"resolution=", &[resolution])
}

// The lines of the knots, the points and the box of a question, from `at` on.
fn put_shape(out: &mut [u8], at: usize, s: Sizes, d: Doubles) -> usize
    requires in_bounds { (at + 5336 ≤ length out.old) × Small s }
    requires long { Long s d.knots.now d.points.now d.sides.now }
    requires knots { all is_number d.knots.now ≡ true }
    requires points { all is_number d.points.now ≡ true }
    requires sides { all is_number d.sides.now ≡ true }
    ensures { let e = d.entry in let w = shape_text s e.knots.now e.points.now e.sides.now in
        Written out.old at w out.new result × (result ≤ at + 5336) }
{
    let i = put_line(out, at, b"knots=", d.knots);
    let j = put_points(out, i, d.points, 2 * (s.dim + 1), s.count);
    put_line(out, j, b"box=", d.sides)
}

// The one form of the question whose doubles stand in `lines`, at the front. The result is how many bytes it has.
fn put_form(out: &mut [u8], asked: Asked, lines: &[f64; 303]) -> usize
    requires in_bounds { 5496 ≤ length out.old }
    requires all_numbers { AllNumbers (numbers_in asked.sizes 0 lines.now) }
    ensures written { let s = asked.sizes in let q = numbers_in s asked.nodes lines.now in
        Written out.old 0 (form asked.rev s q) out.new result }
    ensures within { Counts result out.new }
{
    let i = put_sizes(out, asked.rev, asked.sizes);
    let d = asked.doubles(lines);
    let j = put_limits(out, i, asked.nodes, d.resolution);
    put_shape(out, j, asked.sizes, d)
}

// ---- what is given

// Room for the form of any question, with numbers of up to twenty digits.
fn blank_form() -> [u8; 5496]
    ensures { 5496 ≡ length result }
{
    [0; 5496]
}

// How many of n bytes are given where there is room for so many: all of them, or none.
fn given(n: usize, room: usize) -> usize
    ensures { result ≡ cond (leb n room) n 0 }
{
    if n <= room { n } else { 0 }
}

// The text, written to the front of `out` where it fits. The result is how many bytes it has.
// Where it does not fit, nothing is written, and the number is 15.
pub fn give(text: &[u8], out: &mut [u8]) -> Result<usize, Refusal>
    ensures count { result ≡ count_for (length out.old) text.now }
    ensures output { out.new ≡ output_for out.old text.now }
{
    let n = text.len();
    let k = given(n, out.len());
    put_word(out, 0, &text[..k]);
    if k < n {
        return Err(Refusal::Room);
    }
    Ok(n)
}

// By what the question whose doubles stand in `lines` is refused.
fn lines_refusal(asked: Asked, lines: &[f64; 303]) -> Result<(), Refusal>
    ensures { let s = asked.sizes in
        code_of result ≡ refusal_of asked.rev s (numbers_in s asked.nodes lines.now) }
{
    let s = asked.sizes;
    let d = asked.doubles(lines);
    question_refusal(
        asked.rev,
        s.dim,
        s.degree,
        s.count,
        d.knots,
        d.points,
        d.sides,
        d.resolution,
        asked.nodes,
    )
}

// What is given for the question whose doubles stand in `lines`.
fn rewrite_lines(asked: Asked, lines: &[f64; 303], out: &mut [u8]) -> Result<usize, Refusal>
    ensures { Rewrites (accepted_by (question_in asked lines.now)) out.old out.new result }
{
    lines_refusal(asked, lines)?;
    let mut text = blank_form();
    let n = put_form(&mut text, asked, lines);
    give(&text[..n], out)
}

// The one form of a text, written to the front of `out`: lower-case digits, no negative zero, and always the line of
// the revision. The result is how many bytes it has. A text that 16, 1 to 9 or 12 refuses has that number, whatever room
// there is; an output that is too short for any other has 15. Nothing is written then. 5,405 bytes are enough for any
// text.
//
// Its laws are stated in crates/text/specs/OneForm.antt and proved in crates/text/proofs/rewrite/Laws.antt:
// `AllReadBack`, what is written reads back to the same numbers, and writing it again changes no byte; `OneForm`, two
// texts have equal numbers exactly when they are given equal bytes.
pub fn rewrite(text: &[u8], out: &mut [u8]) -> Result<usize, Refusal>
    ensures rewrites { Rewrites (accepted text.now) out.old out.new result }
    ensures within { Within result out.new }
{
    let mut lines = zeros::<303>();
    let asked = read(text, &mut lines)?;
    rewrite_lines(asked, &lines, out)
}
