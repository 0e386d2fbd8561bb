// The lines of a question.
ghost use Rattle.std.specs.Prelude.{◌≡◌, [], ◌∷◌, ◌+◌, ◌*◌, ◌≤◌, length};
ghost use Rattle.text.specs.Bytes.{word};
ghost use Rattle.text.specs.Question.{behind, small_line, values, line, lines, revision};
ghost use Rattle.text.specs.Question.{sizes, numbers};
ghost use Rattle.text.specs.Cursor.{read_of, word_of, SmallRead, value, ValuesRead};
ghost use Rattle.text.specs.Cursor.{Small, LimitsRead, ShapeRead, NumbersRead};

use crate::cursor::Sizes;
use crate::numerals::{double, small};

// The word w at the front, and what is left behind it.
fn word<'a>(rest: &'a [u8], w: &[u8]) -> Option<&'a [u8]>
    ensures { word_of result ≡ word w.now rest.now }
{
    rest.strip_prefix(w)
}

// The byte b at the front.
fn byte(rest: &[u8], b: u8) -> Option<&[u8]>
    ensures { word_of result ≡ word (b ∷ []) rest.now }
{
    let (first, left) = rest.split_first()?;
    if *first != b {
        return None;
    }
    Some(left)
}

// A line of a key and a small number.
fn small_line<'a>(rest: &'a [u8], key: &[u8]) -> Option<(usize, &'a [u8])>
    ensures { SmallRead (small_line key.now rest.now) result }
{
    let number = word(rest, key)?;
    let (n, end) = small(number)?;
    let left = byte(end, 10)?;
    Some((n, left))
}

// What stands behind a value, where so many follow it.
pub(crate) fn behind(n: usize) -> u8
    ensures { result ≡ behind n }
{
    if n == 0 { 10 } else { 32 }
}

// A double and the byte b behind it.
fn value(rest: &[u8], b: u8) -> Option<(f64, &[u8])>
    ensures { read_of result ≡ value b rest.now }
{
    let (x, end) = double(rest)?;
    let left = byte(end, b)?;
    Some((x, left))
}

// As many doubles as `out` has, written to it.
fn values<'a>(text: &'a [u8], out: &mut [f64]) -> Option<&'a [u8]>
    ensures { let n = length out.old in
        ValuesRead (values n text.now) n 0 out.old out.new result }
{
    let mut rest = text;
    let n = out.len();
    for i in 0..n {
        let (x, left) = value(rest, behind(n - i - 1))?;
        out[i] = x;
        rest = left;
    }
    Some(rest)
}

// A line of a key and as many doubles as `out` has.
fn line<'a>(rest: &'a [u8], key: &[u8], out: &mut [f64]) -> Option<&'a [u8]>
    ensures { let n = length out.old in
        ValuesRead (line key.now n rest.now) n 0 out.old out.new result }
{
    let left = word(rest, key)?;
    values(left, out)
}

// k lines of a key and n doubles, as many as `out` has.
fn lines<'a>(text: &'a [u8], key: &[u8], n: usize, k: usize, out: &mut [f64]) -> Option<&'a [u8]>
    requires { length out.old ≡ n * k }
    ensures { ValuesRead (lines key.now n k text.now) (n * k) 0 out.old out.new result }
{
    let mut rest = text;
    for i in 0..k {
        rest = line(rest, key, &mut out[n * i..n * i + n])?;
    }
    Some(rest)
}

// The line of the revision, which is 1 where the text does not begin with its key: then the whole text is left.
pub(crate) fn revision(text: &[u8]) -> Option<(usize, &[u8])>
    ensures { SmallRead (revision text.now) result }
{
    if word(text, b"rev=").is_none() {
        return Some((1, text));
    }
    small_line(text, b"rev=")
}

// The three lines of the sizes.
pub(crate) fn sizes(rest: &[u8]) -> Option<(Sizes, &[u8])>
    ensures { read_of result ≡ sizes rest.now }
{
    let (dim, a) = small_line(rest, b"dim=")?;
    let (degree, b) = small_line(a, b"degree=")?;
    let (count, left) = small_line(b, b"count=")?;
    Some((Sizes { dim, degree, count }, left))
}

// The line of the nodes and that of the resolution, which is written to the front of `out`.
fn limits<'a>(rest: &'a [u8], out: &mut [f64]) -> Option<(usize, &'a [u8])>
    requires { 1 ≤ length out.old }
    ensures { LimitsRead rest.now out.old out.new result }
{
    let (n, a) = small_line(rest, b"nodes=")?;
    let left = line(a, b"resolution=", &mut out[..1])?;
    Some((n, left))
}

// The lines of the knots, the points and the box, written to `out` from its second place on.
fn shape<'a>(rest: &'a [u8], s: Sizes, out: &mut [f64; 303]) -> Option<&'a [u8]>
    requires { Small s }
    ensures { ShapeRead rest.now s out.old out.new result }
{
    let k = s.count + s.degree + 1;
    let p = 1 + k;
    let a = line(rest, b"knots=", &mut out[1..p])?;
    let w = 2 * (s.dim + 1);
    let b = p + w * s.count;
    let c = lines(a, b"point=", w, s.count, &mut out[p..b])?;
    line(c, b"box=", &mut out[b..b + 2 * s.dim])
}

// All the other lines.
pub(crate) fn numbers<'a>(
    rest: &'a [u8],
    s: Sizes,
    out: &mut [f64; 303],
) -> Option<(usize, &'a [u8])>
    requires { Small s }
    ensures { NumbersRead (numbers s rest.now) s out.old out.new result }
{
    let (n, a) = limits(rest, out)?;
    let left = shape(a, s, out)?;
    Some((n, left))
}
