// Whole numbers of 150 bytes, the lowest first, to which doubles are added exactly, in units of 2^-1074.
ghost use Rattle.std.specs.Prelude.{◌≡◌, ◌*◌, ◌^◌, ◌<◌, T};
ghost use Rattle.std.specs.Float.{binary64};
ghost use Rattle.std.specs.Float.Ieee.{fits, to_bits};
ghost use Rattle.math.specs.Digits.{size_of};
ghost use Rattle.text.specs.Printable.{is_number};
ghost use Rattle.sheet.specs.Sum.{Added, Taken, Plus, Less, More, Fewer};

use math::digits::{digits, shift};

// x, added to the bytes from number `at` on. What does not fit behind the last byte is lost.
fn add_at(sum: [u8; 150], at: usize, x: u64) -> [u8; 150]
    ensures { Added sum at x result }
{
    let mut s = sum;
    let mut rest = x;
    for i in at..150 {
        let v = u64::from(s[i]) + rest % 256;
        s[i] = (v % 256) as u8;
        rest = rest / 256 + v / 256;
    }
    s
}

// x, taken away from the bytes from number `at` on. What is missing is borrowed from behind the last byte.
// It stays beside `add_at`: one loop for both would look at each byte whether it carries or borrows.
// So add_size and take_size, add_double and take_double are pairs as well, over the one and over the other.
fn take_at(sum: [u8; 150], at: usize, x: u64) -> [u8; 150]
    ensures { Taken sum at x result }
{
    let mut s = sum;
    let mut rest = x;
    for i in at..150 {
        let v = u64::from(s[i]) + (256 - rest % 256);
        s[i] = (v % 256) as u8;
        rest = rest / 256 + (1 - v / 256);
    }
    s
}

// ---- doubles

// m, moved up by less than a byte.
fn raised(m: u64, k: u64) -> u64
    requires { (m < 2 ^ 53) × (k < 8) }
    ensures { result ≡ m * 2 ^ k }
{
    m << k
}

// The size of a bit pattern without its sign, added.
fn add_size(sum: [u8; 150], b: u64) -> [u8; 150]
    ensures { Plus sum (size_of b) result }
{
    let k = shift(b);
    let at = k / 8;
    add_at(sum, at as usize, raised(digits(b), k % 8))
}

// The size of a bit pattern without its sign, taken away.
fn take_size(sum: [u8; 150], b: u64) -> [u8; 150]
    ensures { Less sum (size_of b) result }
{
    let k = shift(b);
    let at = k / 8;
    take_at(sum, at as usize, raised(digits(b), k % 8))
}

// A double more.
pub(crate) fn add_double(sum: [u8; 150], x: f64) -> [u8; 150]
    requires { T (is_number x) }
    ensures { More sum (to_bits binary64 x) result × T (fits binary64 x) }
{
    let b = x.to_bits();
    if b < 0x8000_0000_0000_0000 {
        return add_size(sum, b);
    }
    take_size(sum, b - 0x8000_0000_0000_0000)
}

// A double less.
pub(crate) fn take_double(sum: [u8; 150], x: f64) -> [u8; 150]
    requires { T (is_number x) }
    ensures { Fewer sum (to_bits binary64 x) result × T (fits binary64 x) }
{
    let b = x.to_bits();
    if b < 0x8000_0000_0000_0000 {
        return take_size(sum, b);
    }
    add_size(sum, b - 0x8000_0000_0000_0000)
}
