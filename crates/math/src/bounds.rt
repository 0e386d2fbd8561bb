// Revision 1: bounds that are not widened yet, and divisors that are at hand. Where many intervals are joined, each
// bound is widened once, at the end. (In revision 2 a bound is rounded outward when it is made: two exact bounds may
// round to one double, and only one of them may have to move.) A function's promise names the definition that it
// equals, in specs/, for every operand, NaN and the infinities included.
ghost use Rattle.std.specs.Prelude.{◌≡◌};
ghost use Rattle.math.specs.Scalars.{corners};
ghost use Rattle.math.specs.Bounds.{whole_b, difference_b, over_b, join_b, pick_b, widen_b, divisor_of};

use crate::floats::{greater, lesser, max, min, next_down, next_up};
use crate::scalars::Scalar;

// Bounds that are not widened yet.
#[derive(Clone, Copy)]
pub struct Bounds {
    pub lo: f64,
    pub hi: f64,
}

// A divisor, with its widened reciprocal.
#[derive(Clone, Copy)]
pub struct Divisor {
    pub value: Scalar,
    pub inverse: Scalar,
}

impl Divisor {
    // The divisor w, with its widened reciprocal.
    pub fn of(w: Scalar) -> Divisor
        ensures { result ≡ divisor_of w }
    {
        Divisor {
            value: w,
            inverse: w.inverse(),
        }
    }
}

impl Bounds {
    // The whole line.
    fn whole() -> Bounds
        ensures { result ≡ whole_b }
    {
        Bounds {
            lo: f64::NEG_INFINITY,
            hi: f64::INFINITY,
        }
    }

    // The least and the greatest of the four products of the bounds of x and y.
    pub fn product(x: Scalar, y: Scalar) -> Bounds
        ensures { result ≡ corners x y }
    {
        let a = x.lo * y.lo;
        let b = x.lo * y.hi;
        let c = x.hi * y.lo;
        let d = x.hi * y.hi;
        let lo = lesser(lesser(lesser(lesser(f64::INFINITY, a), b), c), d);
        let hi = greater(greater(greater(greater(f64::NEG_INFINITY, a), b), c), d);
        Bounds { lo, hi }
    }

    // The difference of x and y: from x.lo - y.hi to x.hi - y.lo.
    pub fn difference(x: Scalar, y: Scalar) -> Bounds
        ensures { result ≡ difference_b x y }
    {
        Bounds {
            lo: x.lo - y.hi,
            hi: x.hi - y.lo,
        }
    }

    // x over a divisor: the whole line where the divisor holds zero, else the product with its reciprocal.
    pub fn over(x: Scalar, d: Divisor) -> Bounds
        ensures { result ≡ over_b x d }
    {
        let w = d.value;
        if w.has_zero() {
            return Bounds::whole();
        }
        Bounds::product(x, d.inverse)
    }

    // From the lesser lo to the greater hi. A NaN is passed over.
    pub fn join(self, other: Bounds) -> Bounds
        ensures { result ≡ join_b self other }
    {
        Bounds {
            lo: min(self.lo, other.lo),
            hi: max(self.hi, other.hi),
        }
    }

    // The same by one comparison each, for bounds of which these are no NaN.
    pub fn pick(self, other: Bounds) -> Bounds
        ensures { result ≡ pick_b self other }
    {
        Bounds {
            lo: lesser(self.lo, other.lo),
            hi: greater(self.hi, other.hi),
        }
    }

    // The interval that they bound once each is moved outward by one double.
    pub fn widen(self) -> Scalar
        ensures { result ≡ widen_b self }
    {
        Scalar {
            lo: next_down(self.lo),
            hi: next_up(self.hi),
        }
    }
}
