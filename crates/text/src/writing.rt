// Words and numbers, for whoever writes lines of its own. What is asked for is written where there is room for it, and else
// nothing is: so nothing is asked of the caller.
// (The memory and a place, and no slice of what is left: what is promised is of the whole memory, and the result is a place.)
ghost use Rattle.std.specs.Prelude.{◌≡◌, ◌+◌, length, leb};
ghost use Rattle.text.specs.Numerals.{last_digits, decimal};
ghost use Rattle.text.specs.Printable.{WrittenIn};

use crate::print::{put_decimal, put_digits, put_word};

// Whether n bytes from `at` on are among so many.
fn has_room(bytes: usize, at: usize, n: usize) -> bool
    ensures { result ≡ leb (at + n) bytes }
{
    at <= bytes && n <= bytes - at
}

// The word w, from `at` on. As of all that write here, the result is where the rest begins: at `at` itself where there is no room.
pub fn write_word(out: &mut [u8], at: usize, w: &[u8]) -> usize
    ensures { let v = w.now in
        WrittenIn (length v) out.old at v out.new result }
{
    if has_room(out.len(), at, w.len()) {
        return put_word(out, at, w);
    }
    at
}

// A number in decimal, from `at` on, where there is room for one of twenty digits.
pub fn write_decimal(out: &mut [u8], at: usize, n: usize) -> usize
    ensures { WrittenIn 20 out.old at (decimal n) out.new result }
{
    if has_room(out.len(), at, 20) {
        return put_decimal(out, at, n as u64);
    }
    at
}

// The last k hexadecimal digits of n, in lower case, from `at` on.
pub fn write_digits(out: &mut [u8], at: usize, k: usize, n: u64) -> usize
    ensures { WrittenIn k out.old at (last_digits 16 k n) out.new result }
{
    if has_room(out.len(), at, k) {
        return put_digits(out, at, 16, k, n);
    }
    at
}
