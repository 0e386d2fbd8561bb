// Sums, products and quotients of f64 as lower and as upper bounds, by operations that round to the nearest and whole numbers.
// A function's promise names the definition that it equals, in specs/, for every operand, NaN and the infinities included.
ghost use Rattle.std.specs.Prelude.{◌≡◌, true, false, not, ◌&&◌, ◌||◌, cond, ◌%◌, ◌≤◌};
ghost use Rattle.std.specs.Float.{binary64};
ghost use Rattle.std.specs.Float.Ieee.{lt, eq, sub, mul, div, to_bits};
ghost use Rattle.exact.specs.Rational.{◌*ℚ◌, invℚ};
ghost use Rattle.math.specs.RootLaws.{is_finite};
ghost use Rattle.math.specs.Scalars.{zero_f};
ghost use Rattle.math.specs.Values.{value};
ghost use Rattle.math.specs.Digits.{is_ordinary};
ghost use Rattle.math.specs.Neighbours.{next_down};
ghost use Rattle.math.specs.Directed.{exceeds, is_zero, sum_down, sum_up, product_down, product_up, quotient_down, quotient_up};
ghost use Rattle.math.specs.Tight.{low_of, over};

use crate::digits::passes;
use crate::floats::{min, next_down};

// The bits of a number that is neither zero nor infinite.
fn is_ordinary(b: u64) -> bool
    ensures { result ≡ is_ordinary b }
{
    let m = b % 0x8000_0000_0000_0000;
    0 < m && m < 0x7ff0_0000_0000_0000
}

// x, or the f64 before it where `outward` says so; a NaN and the negative infinity, which have none before them, stay. For
// an ordinary number by a sum, since neither that nor the sign can be foreseen: the bits go one down above zero, and one up below it.
fn stepped(x: f64, outward: bool) -> f64
    ensures { result ≡ cond outward (next_down x) x }
{
    if x.is_nan() {
        return x;
    }
    let b = x.to_bits();
    if is_ordinary(b) {
        let d = u64::from(outward);
        return f64::from_bits(b + d * (b / 0x8000_0000_0000_0000) * 2 - d);
    }
    if outward {
        return next_down(x);
    }
    x
}

// A sum s of a and b, rounded to the nearest, lies above a + b: then what is left of it without a is more than b, or without b more than a.
fn above_sum(a: f64, b: f64, s: f64) -> bool
    ensures { result ≡ (lt b (sub binary64 s a) || lt a (sub binary64 s b)) }
{
    b < s - a || a < s - b
}

// The greatest f64 that is at most a + b; a NaN, as a + b is, where a or b is one or they are opposite infinities.
pub fn sum_down(a: f64, b: f64) -> f64
    ensures { result ≡ sum_down a b }
{
    let s = a + b;
    stepped(s, above_sum(a, b, s))
}

// The least f64 that is at least a + b; a NaN, as a + b is, where a or b is one or they are opposite infinities.
pub fn sum_up(a: f64, b: f64) -> f64
    ensures { result ≡ sum_up a b }
{
    -sum_down(-a, -b)
}

// The bits of a number without its sign.
fn magnitude(x: f64) -> u64
    requires { is_finite x ≡ true }
    ensures { result ≡ to_bits binary64 x % 0x8000_0000_0000_0000 }
{
    x.to_bits() % 0x8000_0000_0000_0000
}

// A product p of two finite factors, rounded to the nearest, lies above a b: its size is more than that of a b where it
// is positive, and less where it is negative.
fn above_product(a: f64, b: f64, p: f64) -> bool
    requires { (is_finite a ≡ true) × (is_finite b ≡ true) × (p ≡ mul binary64 a b) }
    ensures { result ≡ exceeds p (value a *ℚ value b) }
{
    let q = p.to_bits();
    let z = q % 0x8000_0000_0000_0000;
    if z < 0x7ff0_0000_0000_0000 {
        return passes(magnitude(a), magnitude(b), z, q >= 0x8000_0000_0000_0000);
    }
    q < 0x8000_0000_0000_0000
}

// Both are finite.
fn both_finite(a: f64, b: f64) -> bool
    ensures { result ≡ (is_finite a && is_finite b) }
{
    a.is_finite() && b.is_finite()
}

// `product_down` where one of the two is not finite: IEEE 754's product, but 0 for zero times an infinity.
fn unbounded_product(a: f64, b: f64) -> f64
    requires { (is_finite a && is_finite b) ≡ false }
    ensures { result ≡ product_down a b }
{
    let p = a * b;
    if !p.is_nan() || a.is_nan() || b.is_nan() {
        return p;
    }
    0.0
}

// A product p that is zero because a factor is.
fn is_flat(a: f64, b: f64, p: f64) -> bool
    ensures { result ≡ (eq p zero_f && (eq a zero_f || eq b zero_f)) }
{
    p == 0.0 && (a == 0.0 || b == 0.0)
}

// The greatest f64 that is at most a b; 0 for zero times an infinity, and a NaN where a or b is one.
pub fn product_down(a: f64, b: f64) -> f64
    ensures { result ≡ product_down a b }
{
    if !both_finite(a, b) {
        return unbounded_product(a, b);
    }
    let p = a * b;
    if is_flat(a, b, p) {
        return p;
    }
    stepped(p, above_product(a, b, p))
}

// The least f64 that is at least a b; -0 for zero times an infinity, and a NaN where a or b is one.
pub fn product_up(a: f64, b: f64) -> f64
    ensures { result ≡ product_up a b }
{
    -product_down(-a, b)
}

// A quotient q of two finite numbers, rounded to the nearest, lies above a / b: its product with b is too large where
// it is positive, and too small where it is negative.
fn above_quotient(a: f64, b: f64, q: f64) -> bool
    requires { (is_finite a ≡ true) × (is_finite b ≡ true) × (is_zero b ≡ false) × (q ≡ div binary64 a b) }
    ensures { result ≡ exceeds q (value a *ℚ invℚ (value b)) }
{
    let k = q.to_bits();
    let z = k % 0x8000_0000_0000_0000;
    if z < 0x7ff0_0000_0000_0000 {
        return passes(z, magnitude(b), magnitude(a), k < 0x8000_0000_0000_0000);
    }
    k < 0x8000_0000_0000_0000
}

// Two finite numbers of which the second is not zero.
fn divides(a: f64, b: f64) -> bool
    ensures { result ≡ (is_finite a && is_finite b && not (is_zero b)) }
{
    both_finite(a, b) && b != 0.0
}

// The greatest f64 that is at most a / b, and by zero IEEE 754's infinity; a NaN for zero by zero, for two infinities and for a NaN.
pub fn quotient_down(a: f64, b: f64) -> f64
    ensures { result ≡ quotient_down a b }
{
    let q = a / b;
    if !divides(a, b) || a == 0.0 {
        return q;
    }
    stepped(q, above_quotient(a, b, q))
}

// The least f64 that is at least a / b, and by zero IEEE 754's infinity; a NaN for zero by zero, for two infinities and for a NaN.
pub fn quotient_up(a: f64, b: f64) -> f64
    ensures { result ≡ quotient_up a b }
{
    -quotient_down(-a, b)
}

// The lower bound of [a, b] times [c, d], which are in order: which two bounds have the least product goes by the signs.
pub(crate) fn low_of(a: f64, b: f64, c: f64, d: f64) -> f64
    ensures { result ≡ low_of a b c d }
{
    if 0.0 <= c {
        if 0.0 <= a {
            return product_down(a, c);
        }
        return product_down(a, d);
    }
    if d <= 0.0 {
        if 0.0 <= b {
            return product_down(b, c);
        }
        return product_down(b, d);
    }
    if 0.0 <= a {
        return product_down(b, c);
    }
    if b <= 0.0 {
        return product_down(a, d);
    }
    min(product_down(a, d), product_down(b, c))
}

// The lower bound of a over [c, d], for an a below the positive infinity and an interval in order that lies above zero.
pub(crate) fn over(a: f64, c: f64, d: f64) -> f64
    ensures { result ≡ over a c d }
{
    if 0.0 <= a {
        return quotient_down(a, d);
    }
    quotient_down(a, c)
}
