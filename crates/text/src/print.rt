// The seven lines of an answer.
ghost use Rattle.std.specs.Prelude.{◌≡◌, ◌++◌, ◌+◌, ◌≤◌, ◌<◌, length, T};
ghost use Rattle.model.specs.Paper.{paper};
ghost use Rattle.text.specs.Numerals.{digit_of, last_digits, decimal_length, decimal, hexadecimal};
ghost use Rattle.text.specs.Respond.{result_word, count_lines, bound_lines, counted, printed};
ghost use Rattle.text.specs.Printable.{Written, is_number, Printable, numbered_paper};

use geometry::answers::{counts, number};
use model::contains::Found;
use model::subdivide::Counts;

// ---- words and numbers

// The word w from `at` on. As of all that write here, the result is where the rest begins.
pub(crate) fn put_word(out: &mut [u8], at: usize, w: &[u8]) -> usize
    requires { at + length w.now ≤ length out.old }
    ensures { Written out.old at w.now out.new result }
{
    let end = at + w.len();
    out[at..end].copy_from_slice(w);
    end
}

// A number below 10 or 16 as a digit of lower case.
fn digit_of(n: u64) -> u8
    requires { n < 16 }
    ensures { result ≡ digit_of n }
{
    if n <= 9 { 48 + n as u8 } else { 87 + n as u8 }
}

// The last k digits of n in a base, from `at` on. (By an index: of what `iter_mut().rev()` writes, nothing is known.)
pub(crate) fn put_digits(out: &mut [u8], at: usize, base: u64, k: usize, n: u64) -> usize
    requires { (0 < base) × (base ≤ 16) × (at + k ≤ length out.old) }
    ensures { Written out.old at (last_digits base k n) out.new result }
{
    let mut rest = n;
    for i in (0..k).rev() {
        out[at + i] = digit_of(rest % base);
        rest /= base;
    }
    at + k
}

// How many digits n has in decimal. No u64 has more than 20.
fn decimal_length(n: u64) -> usize
    ensures { (result ≡ decimal_length 19 n) × (result ≤ 20) }
{
    let mut rest = n;
    for l in 1..20 {
        if rest <= 9 {
            return l;
        }
        rest /= 10;
    }
    20
}

// A number in decimal, from `at` on.
pub(crate) fn put_decimal(out: &mut [u8], at: usize, n: u64) -> usize
    requires { at + 20 ≤ length out.old }
    ensures { Written out.old at (decimal n) out.new result × (result ≤ at + 20) }
{
    let k = decimal_length(n);
    put_digits(out, at, 10, k, n)
}

// A double that is no NaN as the sixteen hexadecimal digits of its bits, from `at` on.
pub(crate) fn put_double(out: &mut [u8], at: usize, x: f64) -> usize
    requires { (at + 16 ≤ length out.old) × T (is_number x) }
    ensures { Written out.old at (hexadecimal x) out.new result × (result ≡ at + 16) }
{
    put_digits(out, at, 16, 16, x.to_bits())
}

// ---- lines

// What stands behind `result=`, from `at` on.
fn put_result(out: &mut [u8], at: usize, f: Found) -> usize
    requires { at + 28 ≤ length out.old }
    ensures { let l = out.old in let m = out.new in
        Written l at (result_word (paper f).result) m result × (result ≤ at + 28) }
{
    match f {
        Found::Nothing(_) => { put_word(out, at, b"none") }
        Found::Enclosed(..) => { put_word(out, at, b"enclosed") }
        Found::Spent(..) => { put_word(out, at, b"spent") }
        Found::Refused(refused, _) => {
            let i = put_word(out, at, b"refused-");
            put_decimal(out, i, number(refused))
        }
    }
}

// How many pieces were left: 0 unless spent.
fn pending_of(f: Found) -> u64
    ensures { result ≡ (paper f).pending }
{
    match f {
        Found::Spent(n, _) => n as u64,
        Found::Nothing(_) | Found::Enclosed(..) | Found::Refused(..) => 0,
    }
}

// A key and a number, from `at` on.
pub(crate) fn put_count(out: &mut [u8], at: usize, key: &[u8], n: u64) -> usize
    requires { at + length key.now + 20 ≤ length out.old }
    ensures { let k = key.now in let l = out.old in let m = out.new in
        Written l at (k ++ decimal n) m result × (result ≤ at + length k + 20) }
{
    let i = put_word(out, at, key);
    put_decimal(out, i, n)
}

// The lines of these counts, of which so many are pending, from `at` on, where the line before them has to end.
fn put_counted(out: &mut [u8], at: usize, counts: Counts, pending: u64) -> usize
    requires { at + 112 ≤ length out.old }
    ensures { let l = out.old in let m = out.new in
        Written l at (count_lines (counted counts pending)) m result × (result ≤ at + 112) }
{
    let i = put_count(out, at, b"\nvisited=", counts.visited as u64);
    let j = put_count(out, i, b"\ncuts=", counts.cuts as u64);
    let k = put_count(out, j, b"\ndepth=", counts.depth as u64);
    let l = put_count(out, k, b"\npending=", pending);
    put_word(out, l, b"\n")
}

// The lines of the counts of an answer, from `at` on, where the line before them has to end.
fn put_counts(out: &mut [u8], at: usize, f: Found) -> usize
    requires { at + 112 ≤ length out.old }
    ensures { let l = out.old in let m = out.new in
        Written l at (count_lines (paper f)) m result × (result ≤ at + 112) }
{
    put_counted(out, at, counts(f), pending_of(f))
}

// The lines of the two bounds, from `at` on.
fn put_bounds(out: &mut [u8], at: usize, f: Found) -> usize
    requires { (at + 40 ≤ length out.old) × Printable f }
    ensures { let l = out.old in let m = out.new in
        Written l at (bound_lines (paper f).bounds) m result × (result ≤ at + 40) }
{
    let Found::Enclosed(lo, hi, _) = f else {
        return put_word(out, at, b"lo=-\nhi=-\n");
    };
    let i = put_word(out, at, b"lo=");
    let j = put_double(out, i, lo);
    let k = put_word(out, j, b"\nhi=");
    let l = put_double(out, k, hi);
    put_word(out, l, b"\n")
}

// The seven lines of an answer, written to the front of `out`. The result is how many bytes they are.
pub(crate) fn write(f: Found, out: &mut [u8]) -> usize
    requires { (192 ≤ length out.old) × Printable f }
    ensures { Written out.old 0 (printed (paper f)) out.new result × (result ≤ 192) }
{
    let i = put_word(out, 0, b"result=");
    let j = put_result(out, i, f);
    let k = put_counts(out, j, f);
    put_bounds(out, k, f)
}

// The seven lines of a refusal by this number, written to the front of `out`. The result is how many bytes they are.
pub(crate) fn write_refused(number: u64, counts: Counts, out: &mut [u8]) -> usize
    requires { 192 ≤ length out.old }
    ensures { Written out.old 0 (printed (numbered_paper number counts)) out.new result × (result ≤ 192) }
{
    let i = put_word(out, 0, b"result=");
    let j = put_word(out, i, b"refused-");
    let k = put_decimal(out, j, number);
    let l = put_counted(out, k, counts, 0);
    put_word(out, l, b"lo=-\nhi=-\n")
}
