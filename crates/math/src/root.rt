// The square root of an f64, rounded to the nearest as IEEE 754 has it, with no machine instruction for it.
// The number is written as m * 2^a with an even a and an m of 53 or 54 binary digits. Then the whole part of the root of m * 2^52 has 53 digits,
// which are the result's but for the rounding, and the remainder says which way to round. The result's exponent is (a - 52) / 2.
// Powers of two in this file: 2^52 is 0x10_0000_0000_0000, 2^53 is 0x20_0000_0000_0000.
ghost use Rattle.std.specs.Prelude.{◌≡◌, ◌+◌, ◌*◌, ◌^◌, ◌≤◌, ◌<◌};
ghost use Rattle.std.specs.Float.Ieee.{of_bits};
ghost use Rattle.std.specs.Float.{binary64};
ghost use Rattle.math.specs.Root.{sqrt_f, root_of};
ghost use Rattle.math.specs.Scale.{Normal, Even};

use crate::digits::product;

// A whole root and its remainder: q * q + rem is the number, and rem is too small for q + 1.
#[derive(Clone, Copy)]
struct Root {
    q: u64,
    rem: u64,
}

// (m < 2^54 here and below is a bound on one number of this file, which a type would say no plainer.)
// The whole root of m * 2^52: q, where the square of q shows that it is the one, and else one that is searched for.
fn from_guess(m: u64, q: u64) -> Root
    requires { (m < 2 ^ 54) × (q < 2 ^ 54) }
    ensures { (m * 2 ^ 52 ≡ result.q * result.q + result.rem) × (result.rem ≤ 2 * result.q) }
{
    let n = product(m, 0x10_0000_0000_0000);
    let s = product(q, q);
    if s <= n {
        let rem = n - s;
        if rem <= u128::from(2 * q) {
            return Root { q, rem: rem as u64 };
        }
    }
    let r = n.isqrt();
    Root {
        q: r as u64,
        rem: (n - r * r) as u64,
    }
}

// The bit pattern of the f64 m / 2^52, for an m from 2^52 on, from 2^53 on an even one. Below 4.0, whatever m is.
fn pattern(m: u64) -> u64
    requires { m < 2 ^ 54 }
    ensures { result < 0x4010_0000_0000_0000 }
{
    if m < 0x20_0000_0000_0000 {
        return m + 0x3fe0_0000_0000_0000;
    }
    m / 2 + 0x3ff0_0000_0000_0000
}

// A guess at the whole root of m * 2^52, in floating point: with x = m / 2^52, three of Newton's steps for 1 / sqrt(x) and one for sqrt(x),
// whose digits are the guess. It starts from the known trick of halving the bit pattern.
// No result rests on it: a bad guess would cost time alone, since `from_guess` checks what it is given.
fn guess(m: u64) -> u64
    requires { m < 2 ^ 54 }
    ensures { (0 < result) × (result < 2 ^ 53) }
{
    let b = pattern(m);
    let x = f64::from_bits(b);
    let h = x * 0.5;
    let y0 = f64::from_bits(0x5fe6_eb50_c7b5_37a9 - b / 2);
    let y1 = y0 * (1.5 - h * y0 * y0);
    let y2 = y1 * (1.5 - h * y1 * y1);
    let y3 = y2 * (1.5 - h * y2 * y2);
    let z = x * y3;
    let y = z + (x - z * z) * (y3 * 0.5);
    if y < 2.0 {
        return y.to_bits() % 0x10_0000_0000_0000 + 0x10_0000_0000_0000;
    }
    0x10_0000_0000_0000
}

// The guess, or the number before or after it, where the square of q says so.
fn step(m: u64, q: u64) -> u64
    requires { (m < 2 ^ 54) × (0 < q) × (q < 2 ^ 53) }
    ensures { result < 2 ^ 54 }
{
    let n = product(m, 0x10_0000_0000_0000);
    let s = product(q, q);
    if n < s {
        return q - 1;
    }
    if u128::from(2 * q) < n - s {
        return q + 1;
    }
    q
}

// The whole root of m * 2^52.
fn whole_root(m: u64) -> Root
    requires { m < 2 ^ 54 }
    ensures { (m * 2 ^ 52 ≡ result.q * result.q + result.rem) × (result.rem ≤ 2 * result.q) }
{
    let q = guess(m);
    from_guess(m, step(m, q))
}

// The number m * 2^a.
#[derive(Clone, Copy)]
struct Scaled {
    m: u64,
    a: u64,
}

// The same number with an m of 53 binary digits: a subnormal's digits are moved up.
fn normal(m0: u64, a0: u64) -> Scaled
    requires { (0 < m0) × (m0 < 2 ^ 53) × (1074 ≤ a0) × (a0 ≤ 3119) }
    ensures { Normal m0 a0 result.m result.a }
{
    let up = m0.leading_zeros() - 11;
    Scaled {
        m: m0 << up,
        a: a0 - u64::from(up),
    }
}

// The same number with an even a.
fn even(m: u64, a: u64) -> Scaled
    requires { m < 2 ^ 53 }
    ensures { Even m a result.m result.a }
{
    if a % 2 == 1 {
        return Scaled { m: m * 2, a: a - 1 };
    }
    Scaled { m, a }
}

// The bit pattern of the root, in units of the smallest f64, 2^-1074, of a number m0 * 2^a0 in units of its square.
// The root is rounded up where the remainder is above q: sqrt(q * q + rem) is above q + 1/2 from rem = q + 1 on.
// The leading digit of q adds one to the exponent's field, and so does the carry where q + 1 is 2^53.
fn root_bits(m0: u64, a0: u64) -> u64
    requires { (0 < m0) × (m0 < 2 ^ 53) × (1074 ≤ a0) × (a0 ≤ 3119) }
    ensures { (of_bits binary64 result ≡ root_of (m0 * 2 ^ a0)) × (result < 0x7ff0_0000_0000_0000) }
{
    let n = normal(m0, a0);
    let s = even(n.m, n.a);
    let r = whole_root(s.m);
    let k = (s.a - 52) / 2;
    let q = r.q;
    if q < r.rem {
        return k * 0x10_0000_0000_0000 + (q + 1);
    }
    k * 0x10_0000_0000_0000 + q
}

// The square root of x: NaN for a NaN and below zero; a zero and the positive infinity are their own roots.
pub fn sqrt(x: f64) -> f64
    ensures { result ≡ sqrt_f x }
{
    if x.is_nan() {
        return x;
    }
    if x == 0.0 {
        return x;
    }
    if x < 0.0 {
        return f64::NAN;
    }
    if x == f64::INFINITY {
        return x;
    }
    let bits = x.to_bits();
    let e = bits / 0x10_0000_0000_0000;
    let t = bits % 0x10_0000_0000_0000;
    if e == 0 {
        return f64::from_bits(root_bits(t, 1074));
    }
    f64::from_bits(root_bits(t + 0x10_0000_0000_0000, e + 1073))
}
