// How a product of two sizes compares with a third, exactly, in whole numbers. 2^52 is 0x10_0000_0000_0000.
ghost use Rattle.std.specs.Prelude.{◌≡◌, ◌+◌, ◌*◌, ◌^◌, ◌≤◌, ◌<◌};
ghost use Rattle.std.specs.Ordering.{nat_cmp};
ghost use Rattle.math.specs.Digits.{digits_of, shift_of, size_of, is_past, is_near};

use std::cmp::Ordering;

// m * n, in as many digits as it has.
pub(crate) fn product(m: u64, n: u64) -> u128
    requires { (m < 2 ^ 54) × (n < 2 ^ 54) }
    ensures { (result ≡ m * n) × (result < 2 ^ 108) }
{
    u128::from(m) * u128::from(n)
}

// n against w * 2^d. It ends with the first doubling of w that passes n; a 0 is not doubled, since none would.
fn doubled(n: u128, w: u128, d: u64) -> Ordering
    requires { n < 2 ^ 108 }
    ensures { result ≡ nat_cmp n (w * 2 ^ d) }
{
    if w == 0 {
        return n.cmp(&w);
    }
    let mut t = w;
    for _ in 0..d {
        if n < t {
            return Ordering::Less;
        }
        t *= 2;
    }
    n.cmp(&t)
}

// The digits of the bit pattern of a double without its sign, and how far they are moved up.
#[tactic(auto, unfolding(crate::specs::Digits::digits_of))]
pub fn digits(b: u64) -> u64
    ensures { (result ≡ digits_of b) × (result < 2 ^ 53) }
{
    if b < 0x10_0000_0000_0000 {
        return b;
    }
    b % 0x10_0000_0000_0000 + 0x10_0000_0000_0000
}

#[tactic(auto, unfolding(crate::specs::Digits::shift_of))]
pub fn shift(b: u64) -> u64
    ensures { (result ≡ shift_of b) × (result ≤ 4096) }
{
    if b < 0x10_0000_0000_0000 {
        return 0;
    }
    b / 0x10_0000_0000_0000 - 1
}

// The product of the sizes of two patterns against the size of a third, in units of 2^-1074 each: x y 2^-2148 against z 2^-1074.
fn side(x: u64, y: u64, z: u64) -> Ordering
    ensures { result ≡ nat_cmp (size_of x * size_of y) (size_of z * 2 ^ 1074) }
{
    let n = product(digits(x), digits(y));
    let w = product(digits(z), 0x10_0000_0000_0000);
    let up = shift(x) + shift(y);
    let off = shift(z) + 1022;
    if up <= off {
        return doubled(n, w, off - up);
    }
    doubled(w, n, up - off).reverse()
}

// n lies below t, or, where more is asked, above it.
fn past(n: u128, t: u128, more: bool) -> bool
    ensures { result ≡ is_past n t more }
{
    if more { t < n } else { n < t }
}

// One doubling at most is left to do: so it is for normal numbers, where z is what x y was rounded to.
fn is_near(up: u64, off: u64) -> bool
    requires { up ≤ 8192 }
    ensures { result ≡ is_near up off }
{
    up <= off && off < up + 2
}

// The product of the sizes of two patterns lies below the size of a third, or, where more is asked, above it.
pub(crate) fn passes(x: u64, y: u64, z: u64, more: bool) -> bool
    ensures { result ≡ is_past (size_of x * size_of y) (size_of z * 2 ^ 1074) more }
{
    let n = product(digits(x), digits(y));
    let w = digits(z);
    let up = shift(x) + shift(y);
    let off = shift(z) + 1022;
    if is_near(up, off) {
        return past(n, product(w * (off - up + 1), 0x10_0000_0000_0000), more);
    }
    let r = side(x, y, z);
    if more { r.is_gt() } else { r.is_lt() }
}
