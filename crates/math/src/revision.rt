// The operations that round, in each revision of the arithmetic. A revision is a type: what is written over `R: Revision`
// is one text, proved once, for both.
// A function's promise names the definition that it equals, in specs/, for every operand, NaN and the infinities included.
ghost use Rattle.std.specs.Prelude.{◌≡◌, Bool, true, false, ⊤};
ghost use Rattle.math.specs.Scalars.{ENTIRE, value_or, union_s, interpolate_s};
ghost use Rattle.math.specs.Bounds.{widen_b, divisor_of};
ghost use Rattle.math.specs.Revision.{arithmetic};
ghost use Rattle.math.specs.Paper.{quotient_in, Divides};
ghost use Rattle.math.specs.Factors.{fraction_of, both_ways, between_s};
ghost use Rattle.math.specs.Laws.{AreDoubles, AreNumbers};

use crate::bounds::{Bounds, Divisor};
use crate::directed::{low_of, over, quotient_down, quotient_up, sum_down, sum_up};
use crate::floats::{down, next_down, next_up, up};
use crate::scalars::Scalar;

// A fraction of a way, with what `between` needs of it.
#[derive(Clone, Copy)]
pub struct Fraction {
    // The fraction itself.
    pub alpha: Scalar,
    // 1 - alpha.
    pub beta: Scalar,
}

pub trait Revision {
    ghost use Rattle.math.specs.declared.bounds.Bounds.{Bounds};
    ghost use Rattle.math.specs.declared.bounds.Divisor.{Divisor};
    ghost use Rattle.math.specs.declared.scalars.Scalar.{Scalar};

    // Whether it is revision 2: `arithmetic` (specs/Revision.antt) has the operations of each.
    ghost second: { Bool };

    // A divisor that `divisor` made.
    ghost Own: { Divisor → Type 0 };

    // The interval that `close` makes of bounds, and the bounds that `pick` and `join` may put together.
    ghost closed: { Bounds → Scalar };

    ghost Picked: { Bounds → Type 0 };

    ghost Joined: { Bounds → Type 0 };

    fn add(x: Scalar, y: Scalar) -> Scalar
        ensures { result ≡ (arithmetic second).add x y };

    fn sub(x: Scalar, y: Scalar) -> Scalar
        ensures { result ≡ (arithmetic second).sub x y };

    fn mul(x: Scalar, y: Scalar) -> Scalar
        ensures { result ≡ (arithmetic second).mul x y };

    // `mul`, which may be shorter where y is a factor: for operands that mostly are.
    fn times(x: Scalar, y: Scalar) -> Scalar
        ensures { result ≡ (arithmetic second).mul x y };

    // The quotient by what does not hold zero.
    fn quotient(x: Scalar, y: Scalar) -> Scalar
        ensures { result ≡ quotient_in second x y };

    // A divisor, for more than one quotient by w.
    fn divisor(w: Scalar) -> Divisor
        ensures { (result.value ≡ w) × Own result };

    // The quotient by the value of a divisor, or the whole line where that holds zero.
    fn over(x: Scalar, d: Divisor) -> Scalar
        ensures { Own d → result ≡ value_or ((arithmetic second).div x d.value) ENTIRE };

    // 4 / 5.
    fn four_fifths() -> Scalar
        ensures { result ≡ (arithmetic second).four_fifths };

    // `interpolate`, for a caller that has the fraction at hand.
    fn between(a: Scalar, b: Scalar, f: Fraction) -> Scalar
        ensures { result ≡ between_s (arithmetic second) a b f };

    // ---- unions of many intervals, which are rounded outward as late as the revision allows

    // The bounds of `over`.
    fn bounds_over(x: Scalar, d: Divisor) -> Bounds
        ensures { Own d → Picked result × (closed result ≡ value_or ((arithmetic second).div x d.value) ENTIRE) };

    // The union of two of these.
    fn pick(a: Bounds, b: Bounds) -> Bounds
        ensures { Picked a → Picked b → Picked result × (closed result ≡ union_s (closed a) (closed b)) };

    // The bounds of `sub`.
    fn bounds_sub(x: Scalar, y: Scalar) -> Bounds
        ensures { Joined result × (closed result ≡ (arithmetic second).sub x y) };

    // The union of two of these.
    fn join(a: Bounds, b: Bounds) -> Bounds
        ensures { Joined a → Joined b → Joined result × (closed result ≡ union_s (closed a) (closed b)) };

    fn close(b: Bounds) -> Scalar
        ensures { result ≡ closed b };

    // ---- in the same way in both

    // None where the divisor holds zero.
    fn div(x: Scalar, y: Scalar) -> Option<Scalar>
        ensures { Divides second x y result }
    {
        if y.has_zero() {
            return None;
        }
        Some(Self::quotient(x, y))
    }

    // The fraction alpha, with what `between` needs of it.
    fn fraction(alpha: Scalar) -> Fraction
        ensures { result ≡ fraction_of (arithmetic second) alpha }
    {
        let beta = Self::sub(Scalar::ONE, alpha);
        Fraction { alpha, beta }
    }

    // What a + alpha (b - a) and (1 - alpha) a + alpha b have in common.
    fn both_ways(a: Scalar, b: Scalar, f: Fraction) -> Scalar
        ensures { result ≡ both_ways (arithmetic second) a b f }
    {
        let via_delta = Self::add(a, Self::mul(f.alpha, Self::sub(b, a)));
        let via_weights = Self::add(Self::mul(f.beta, a), Self::mul(f.alpha, b));
        via_delta.intersect(via_weights)
    }

    // The point a fraction alpha of the way from a to b: a where both are the same and alpha lies in 0 to 1, else what
    // a + alpha (b - a) and (1 - alpha) a + alpha b have in common.
    fn interpolate(a: Scalar, b: Scalar, alpha: Scalar) -> Scalar
        ensures { result ≡ interpolate_s (arithmetic second) a b alpha }
    {
        Self::between(a, b, Self::fraction(alpha))
    }
}

// Revision 1, which is the Rust's: every result is widened by one double on either side.
pub struct First;

impl Revision for First {
    ghost second = { false };

    ghost Own = { λ d. d ≡ divisor_of d.value };

    ghost closed = { widen_b };

    ghost Picked = { AreNumbers };

    ghost Joined = { AreDoubles };

    fn add(x: Scalar, y: Scalar) -> Scalar {
        Scalar {
            lo: next_down(x.lo + y.lo),
            hi: next_up(x.hi + y.hi),
        }
    }

    fn sub(x: Scalar, y: Scalar) -> Scalar {
        Scalar {
            lo: next_down(x.lo - y.hi),
            hi: next_up(x.hi - y.lo),
        }
    }

    fn mul(x: Scalar, y: Scalar) -> Scalar {
        let c = Bounds::product(x, y);
        Scalar {
            lo: down(c.lo),
            hi: up(c.hi),
        }
    }

    fn times(x: Scalar, y: Scalar) -> Scalar {
        let c = x.corners(y);
        Scalar {
            lo: down(c.lo),
            hi: up(c.hi),
        }
    }

    fn quotient(x: Scalar, y: Scalar) -> Scalar {
        Self::mul(x, y.inverse())
    }

    fn divisor(w: Scalar) -> Divisor {
        Divisor::of(w)
    }

    fn over(x: Scalar, d: Divisor) -> Scalar {
        x.over(d)
    }

    fn bounds_over(x: Scalar, d: Divisor) -> Bounds {
        Bounds::over(x, d)
    }

    fn pick(a: Bounds, b: Bounds) -> Bounds {
        a.pick(b)
    }

    fn bounds_sub(x: Scalar, y: Scalar) -> Bounds {
        Bounds::difference(x, y)
    }

    fn join(a: Bounds, b: Bounds) -> Bounds {
        a.join(b)
    }

    fn close(b: Bounds) -> Scalar {
        b.widen()
    }

    fn four_fifths() -> Scalar {
        let exact = 4.0 / 5.0;
        Scalar {
            lo: next_down(exact),
            hi: next_up(exact),
        }
    }

    // Where `all_in_order` says so it goes the short way, with products by factors.
    fn between(a: Scalar, b: Scalar, f: Fraction) -> Scalar {
        let alpha = f.alpha;
        let beta = f.beta;
        if Scalar::same_operands(a, b, alpha) {
            return a;
        }
        let lo = b.lo - a.hi;
        let hi = b.hi - a.lo;
        if Scalar::all_in_order(alpha, beta, a, b, Scalar { lo, hi }) {
            let delta = Scalar {
                lo: down(lo),
                hi: up(hi),
            };
            return Scalar::meet_of_sums(a, alpha.scale(delta), beta.scale(a), alpha.scale(b));
        }
        Self::both_ways(a, b, f)
    }
}

// Revision 2: every result has the tightest bounds, those of IEEE 1788.
pub struct Second;

impl Revision for Second {
    ghost second = { true };

    ghost Own = { λ _. ⊤ };

    ghost closed = { λ b. record { lo = b.lo; hi = b.hi } };

    ghost Picked = { λ _. ⊤ };

    ghost Joined = { λ _. ⊤ };

    fn add(x: Scalar, y: Scalar) -> Scalar {
        Scalar {
            lo: sum_down(x.lo, y.lo),
            hi: sum_up(x.hi, y.hi),
        }
    }

    fn sub(x: Scalar, y: Scalar) -> Scalar {
        Scalar {
            lo: sum_down(x.lo, -y.hi),
            hi: sum_up(x.hi, -y.lo),
        }
    }

    fn mul(x: Scalar, y: Scalar) -> Scalar {
        let lo = low_of(x.lo, x.hi, y.lo, y.hi);
        let hi = low_of(-x.hi, -x.lo, y.lo, y.hi);
        Scalar { lo, hi: -hi }
    }

    fn times(x: Scalar, y: Scalar) -> Scalar {
        Self::mul(x, y)
    }

    fn quotient(x: Scalar, y: Scalar) -> Scalar {
        if 0.0 <= y.lo {
            let lo = over(x.lo, y.lo, y.hi);
            let hi = over(-x.hi, y.lo, y.hi);
            return Scalar { lo, hi: -hi };
        }
        let lo = over(-x.hi, -y.hi, -y.lo);
        let hi = over(x.lo, -y.hi, -y.lo);
        Scalar { lo, hi: -hi }
    }

    // No reciprocal is needed here.
    fn divisor(w: Scalar) -> Divisor {
        Divisor {
            value: w,
            inverse: w,
        }
    }

    fn over(x: Scalar, d: Divisor) -> Scalar {
        Self::div(x, d.value).unwrap_or(Scalar::entire())
    }

    fn bounds_over(x: Scalar, d: Divisor) -> Bounds {
        let q = Self::over(x, d);
        Bounds { lo: q.lo, hi: q.hi }
    }

    fn pick(a: Bounds, b: Bounds) -> Bounds {
        Self::join(a, b)
    }

    fn bounds_sub(x: Scalar, y: Scalar) -> Bounds {
        let d = Self::sub(x, y);
        Bounds { lo: d.lo, hi: d.hi }
    }

    fn join(a: Bounds, b: Bounds) -> Bounds {
        Bounds::join(a, b)
    }

    fn close(b: Bounds) -> Scalar {
        Scalar { lo: b.lo, hi: b.hi }
    }

    fn four_fifths() -> Scalar {
        Scalar {
            lo: quotient_down(4.0, 5.0),
            hi: quotient_up(4.0, 5.0),
        }
    }

    fn between(a: Scalar, b: Scalar, f: Fraction) -> Scalar {
        if Scalar::same_operands(a, b, f.alpha) {
            return a;
        }
        Self::both_ways(a, b, f)
    }
}
