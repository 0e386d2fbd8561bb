// Intervals of f64: what the search needs of geop-core-math's scalars/mod.rs, under its names. The operations that round
// are in revision.rt; of those, what revision 1 alone has is here.
// A function's promise names the definition that it equals, in specs/, for every operand, NaN and the infinities included.
ghost use Rattle.std.specs.Prelude.{◌≡◌, true};
ghost use Rattle.math.specs.Scalars.{ENTIRE, sharp, middle, width_s, add_s, mul_s, inverse_s};
ghost use Rattle.math.specs.Scalars.{union_s, intersect_s};
ghost use Rattle.math.specs.Scalars.{has_zero, could_be_equal, definitely_greater, definitely_less};
ghost use Rattle.math.specs.Scalars.{is_subset_of, is_exactly, in_unit, same_operands};
ghost use Rattle.math.specs.Bounds.{over_s};
ghost use Rattle.math.specs.Paper.{IsRatio};
ghost use Rattle.math.specs.Factors.{is_factor, in_order, all_in_order, Corners};

use crate::bounds::{Bounds, Divisor};
use crate::floats::{down, greater, lesser, max, min, next_down, next_up, up};
use crate::revision::{First, Revision};

// An interval from lo to hi.
#[derive(Clone, Copy, PartialEq)]
pub struct Scalar {
    pub lo: f64,
    pub hi: f64,
}

impl Scalar {
    pub const ZERO: Scalar = Scalar { lo: 0.0, hi: 0.0 };

    pub const ONE: Scalar = Scalar { lo: 1.0, hi: 1.0 };

    pub const TWO: Scalar = Scalar { lo: 2.0, hi: 2.0 };

    // The whole line. (A constant cannot hold an infinity.)
    pub fn entire() -> Scalar
        ensures { result ≡ ENTIRE }
    {
        Scalar {
            lo: f64::NEG_INFINITY,
            hi: f64::INFINITY,
        }
    }

    // The interval of one value.
    pub fn from_f64(v: f64) -> Scalar
        ensures { result ≡ sharp v }
    {
        Scalar { lo: v, hi: v }
    }

    // num / den, widened. None where den is 0.
    pub fn from_ratio(num: u32, den: u32) -> Option<Scalar>
        ensures { IsRatio num den result }
    {
        if den == 0 {
            return None;
        }
        let exact = f64::from(num) / f64::from(den);
        Some(Scalar {
            lo: next_down(exact),
            hi: next_up(exact),
        })
    }

    // The middle, (lo + hi) / 2, rounded twice.
    pub fn to_f64(self) -> f64
        ensures { result ≡ middle self }
    {
        (self.lo + self.hi) / 2.0
    }

    // Zero lies in it.
    pub fn has_zero(self) -> bool
        ensures { result ≡ has_zero self }
    {
        self.lo <= 0.0 && self.hi >= 0.0
    }

    // The widened reciprocal.
    pub fn inverse(self) -> Scalar
        ensures { result ≡ inverse_s self }
    {
        Scalar {
            lo: next_down(1.0 / self.hi),
            hi: next_up(1.0 / self.lo),
        }
    }

    pub fn could_be_equal(self, other: Scalar) -> bool
        ensures { result ≡ could_be_equal self other }
    {
        self.lo <= other.hi && other.lo <= self.hi
    }

    pub fn definitely_greater(self, other: Scalar) -> bool
        ensures { result ≡ definitely_greater self other }
    {
        self.lo > other.hi
    }

    pub fn definitely_less(self, other: Scalar) -> bool
        ensures { result ≡ definitely_less self other }
    {
        self.hi < other.lo
    }

    // hi - lo, rounded and never below zero, as a single value.
    pub fn width(self) -> Scalar
        ensures { result ≡ sharp (width_s self) }
    {
        let w = max(self.hi - self.lo, 0.0);
        Scalar { lo: w, hi: w }
    }

    pub fn lower(self) -> Scalar
        ensures { result ≡ sharp self.lo }
    {
        Scalar::from_f64(self.lo)
    }

    pub fn upper(self) -> Scalar
        ensures { result ≡ sharp self.hi }
    {
        Scalar::from_f64(self.hi)
    }

    // Its middle, as a single value.
    pub fn sharpen(self) -> Scalar
        ensures { result ≡ sharp (middle self) }
    {
        Scalar::from_f64(self.to_f64())
    }

    pub fn is_subset_of(self, other: Scalar) -> bool
        ensures { result ≡ is_subset_of self other }
    {
        other.lo <= self.lo && self.hi <= other.hi
    }

    pub fn is_exactly(self, other: Scalar) -> bool
        ensures { result ≡ is_exactly self other }
    {
        self.is_subset_of(other) && other.is_subset_of(self)
    }

    // What lies in both. Of two that don't meet it is the narrower, self on a tie.
    pub fn intersect(self, other: Scalar) -> Scalar
        ensures { result ≡ intersect_s self other }
    {
        let lo = max(self.lo, other.lo);
        let hi = min(self.hi, other.hi);
        if lo <= hi {
            return Scalar { lo, hi };
        }
        if self.hi - self.lo <= other.hi - other.lo {
            return self;
        }
        other
    }

    // From the lesser lo to the greater hi.
    pub fn union(self, other: Scalar) -> Scalar
        ensures { result ≡ union_s self other }
    {
        Scalar {
            lo: min(self.lo, other.lo),
            hi: max(self.hi, other.hi),
        }
    }

    // It lies in 0 to 1.
    fn in_unit(self) -> bool
        ensures { result ≡ in_unit self }
    {
        self.lo >= 0.0 && self.hi <= 1.0
    }

    // a and b are the same, and alpha lies in 0 to 1: every point between them is a itself.
    pub(crate) fn same_operands(a: Scalar, b: Scalar, alpha: Scalar) -> bool
        ensures { result ≡ same_operands a b alpha }
    {
        a.is_exactly(b) && alpha.in_unit()
    }

    // Its bounds are in order, above zero and finite: a product with it keeps the order of the other bounds.
    fn is_factor(self) -> bool
        ensures { result ≡ is_factor self }
    {
        self.lo > 0.0 && self.lo <= self.hi && self.hi < f64::INFINITY
    }

    // Its bounds are in order, and no NaN.
    fn in_order(self) -> bool
        ensures { result ≡ in_order self }
    {
        self.lo <= self.hi
    }

    // `mul` by a factor, of what is in order: each bound is picked from two products, not from four.
    pub(crate) fn scale(self, other: Scalar) -> Scalar
        requires { (is_factor self ≡ true) × (in_order other ≡ true) }
        ensures { result ≡ mul_s self other }
    {
        Scalar {
            lo: down(lesser(self.lo * other.lo, self.hi * other.lo)),
            hi: up(greater(self.lo * other.hi, self.hi * other.hi)),
        }
    }

    // The bounds of the product in revision 1 before they are widened: picked from two products, not from four, where
    // the other operand is a factor and this one is in order.
    pub(crate) fn corners(self, other: Scalar) -> Bounds
        ensures { Corners self other result }
    {
        if other.is_factor() && self.in_order() {
            return Bounds {
                lo: lesser(other.lo * self.lo, other.hi * self.lo),
                hi: greater(other.lo * self.hi, other.hi * self.hi),
            };
        }
        Bounds::product(self, other)
    }

    // The quotient in revision 1 by a divisor that is at hand, or the whole line where it holds zero.
    pub fn over(self, d: Divisor) -> Scalar
        ensures { result ≡ over_s self d }
    {
        let w = d.value;
        if w.has_zero() {
            return Scalar::entire();
        }
        First::times(self, d.inverse)
    }

    // What a + m and p + q have in common: where the sums meet before they are widened, each bound is widened once, after the pick.
    pub(crate) fn meet_of_sums(a: Scalar, m: Scalar, p: Scalar, q: Scalar) -> Scalar
        ensures { result ≡ intersect_s (add_s a m) (add_s p q) }
    {
        let lo = greater(a.lo + m.lo, p.lo + q.lo);
        let hi = lesser(a.hi + m.hi, p.hi + q.hi);
        if lo <= hi {
            return Scalar {
                lo: down(lo),
                hi: up(hi),
            };
        }
        First::add(a, m).intersect(First::add(p, q))
    }

    // Alpha and beta are factors, and what `between` multiplies by them is in order: diff is b - a before it is widened.
    pub(crate) fn all_in_order(
        alpha: Scalar,
        beta: Scalar,
        a: Scalar,
        b: Scalar,
        diff: Scalar,
    ) -> bool
        ensures { result ≡ all_in_order alpha beta a b diff }
    {
        alpha.is_factor() && beta.is_factor() && a.in_order() && b.in_order() && diff.in_order()
    }
}
