// nurb_curve/mod.rs: the numbers of a piece, its domain, the parameter at which it is halved, and the test of its weights.
// Points are lent as a list of numbers: the lo and the hi of each of their dim + 1 intervals, the weight's last.
ghost use Rattle.std.specs.Prelude.{◌≡◌, true, ◌&&◌, suc, ◌+◌, ◌*◌, ◌≤◌, ◌<◌, length};
ghost use Rattle.std.specs.Float.Ieee.{lt};
ghost use Rattle.math.specs.Scalars.{zero_f, is_same};
ghost use Rattle.math.specs.Revision.{arithmetic};
ghost use Rattle.model.specs.Vector.{coordinate};
ghost use Rattle.model.specs.Layout.{scalar_at};
ghost use Rattle.model.specs.NurbCurve.{domain, in_domain, mid_parameter, weights_positive};

use crate::vector::scalar_from;
use math::revision::Revision;
use math::scalars::Scalar;

// Interval number j of a lent list.
pub(crate) fn scalar_at(l: &[f64], j: usize) -> Scalar
    requires { 2 * j + 2 ≤ length l.now }
    ensures { result ≡ scalar_at l.now j }
{
    scalar_from(l, 2 * j)
}

// The control points of a piece: `count` of them, of dim + 1 intervals each, the weight's last. In `words` their numbers
// stand one behind the other, lo and hi side by side.
// (There may be none, where only weights are looked at: what needs a point says `1 ≤ p.count`.)
#[derive(Clone, Copy)]
pub(crate) struct Polygon<'a> {
    pub(crate) words: &'a [f64],
    pub(crate) dim: usize,
    pub(crate) count: usize,
    ghost sized: { (dim ≤ 3) × (count ≤ 64) × (2 * (suc dim * count) ≤ length words.now) },
}

impl Polygon<'_> {
    ghost use Rattle.geometry.specs.Polygon.{vector, vectors};

    // Interval number k of point i; the weight is number dim.
    pub(crate) fn coordinate(self, i: usize, k: usize) -> Scalar
        requires { (k ≤ self.dim) × (i < self.count) }
        ensures { result ≡ coordinate (vector self.entry i) k }
    {
        scalar_at(self.words, (self.dim + 1) * i + k)
    }

    // The weight of point i.
    pub(crate) fn weight(self, i: usize) -> Scalar
        requires { i < self.count }
        ensures { result ≡ coordinate (vector self.entry i) self.entry.dim }
    {
        self.coordinate(i, self.dim)
    }

    // Every point's weight has its lo above zero.
    pub(crate) fn weights_positive(self) -> bool
        ensures { let p = self.entry in
            result ≡ weights_positive p.dim (vectors p) }
    {
        (0..self.count).all(|i| 0.0 < self.weight(i).lo)
    }
}

// The interval from a to b.
pub(crate) fn domain(a: f64, b: f64) -> Scalar
    ensures { result ≡ domain a b }
{
    Scalar::from_f64(a).union(Scalar::from_f64(b))
}

// The parameter t lies strictly between a and b.
pub(crate) fn in_domain(a: f64, b: f64, t: f64) -> bool
    ensures { result ≡ in_domain a b t }
{
    a < t && t < b
}

// The middle of (a + b) / 2.
pub(crate) fn mid_parameter<R: Revision>(a: f64, b: f64) -> f64
    ensures { result ≡ mid_parameter (arithmetic R.second) a b }
{
    let sum = R::add(Scalar::from_f64(a), Scalar::from_f64(b));
    R::div(sum, Scalar::TWO)
        .unwrap_or(Scalar::entire())
        .to_f64()
}

// Both bounds are above zero.
fn positive(a: Scalar) -> bool
    ensures { result ≡ (lt zero_f a.lo && lt zero_f a.hi) }
{
    0.0 < a.lo && 0.0 < a.hi
}

// The two are the same bound by bound, and above zero, since a zero may have either sign: then they are one interval.
pub(crate) fn repeats(a: Scalar, b: Scalar) -> bool
    ensures { (result ≡ (is_same a b && (lt zero_f a.lo && lt zero_f a.hi))) × (result ≡ true → a ≡ b) }
{
    // bound by bound: behind the derived == the proof does not know that the bounds are doubles
    if a.lo == b.lo && a.hi == b.hi {
        return positive(a);
    }
    false
}
