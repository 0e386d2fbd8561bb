// aabb.rs: the box of a piece, and the test before the search.
ghost use Rattle.std.specs.Prelude.{◌≡◌, map, suc, ◌*◌, ◌≤◌, ◌<◌, length};
ghost use Rattle.math.specs.Scalars.{geop, ZERO, ONE, union_s};
ghost use Rattle.math.specs.Tight.{tight};
ghost use Rattle.math.specs.Revision.{arithmetic};
ghost use Rattle.math.specs.Bounds.{divisor_of};
ghost use Rattle.model.specs.Layout.{scalars_of};
ghost use Rattle.geometry.specs.Polygon.{vector, vectors};
ghost use Rattle.model.specs.Aabb.{unions, place, aabb, could_overlap, along, meets, could_meet};

use crate::nurb_curve::{Polygon, repeats, scalar_at};
use math::bounds::Divisor;
use math::revision::Revision;
use math::scalars::Scalar;

// Coordinate k of point i over its weight.
fn place<R: Revision>(p: Polygon<'_>, i: usize, k: usize) -> Scalar
    requires { (i < p.count) × (k < p.dim) }
    ensures { result ≡ place (arithmetic R.second) p.entry.dim k (vector p.entry i) }
{
    let x = p.coordinate(i, k);
    let w = p.weight(i);
    R::div(x, w).unwrap_or(Scalar::entire())
}

// The divisor w, which is the last one where w repeats its value.
fn divisor_of<R: Revision>(w: Scalar, last: Divisor) -> Divisor
    requires { R.Own last }
    ensures { (result.value ≡ w) × R.Own result }
{
    if repeats(w, last.value) {
        return last;
    }
    R::divisor(w)
}

// The box of a piece along axis k: the union over its points. What repeats a weight takes its divisor over.
fn axis_box<R: Revision>(p: Polygon<'_>, k: usize) -> Scalar
    requires { (1 ≤ p.count) × (k < p.dim) }
    ensures { result ≡ unions (map (λ q. place (arithmetic R.second) p.entry.dim k q) (vectors p.entry)) }
{
    let mut last = R::divisor(p.weight(0));
    let mut all = R::bounds_over(p.coordinate(0, k), last);
    for i in 1..p.count {
        last = divisor_of::<R>(p.weight(i), last);
        all = R::pick(all, R::bounds_over(p.coordinate(i, k), last));
    }
    R::close(all)
}

// The box of a piece and the lent box could meet in every axis.
pub(crate) fn aabb_could_overlap<R: Revision>(p: Polygon<'_>, point_box: &[f64]) -> bool
    requires { (1 ≤ p.count) × (2 * p.dim ≤ length point_box.now) }
    ensures { let q = p.entry in
        result ≡ could_overlap (aabb (arithmetic R.second) q.dim (vectors q)) (scalars_of q.dim point_box.now) }
{
    for k in 0..p.dim {
        let extent = axis_box::<R>(p, k);
        let other = scalar_at(point_box, k);
        if !extent.could_be_equal(other) {
            return false;
        }
    }
    true
}

// Where along the segment from a to b, in one axis, it lies in e; missing where it may not move along this axis.
fn along<R: Revision>(e: Scalar, a: Scalar, b: Scalar) -> Option<Scalar>
    ensures { result ≡ along (arithmetic R.second) e a b }
{
    let d = R::sub(b, a);
    let s = R::div(R::sub(e.lower(), a), d)?;
    let t = R::div(R::sub(e.upper(), a), d)?;
    Some(s.union(t))
}

// The segment from point 0 to point 1 could meet the lent box: what each axis leaves of the range from 0 to 1 is not empty.
fn meets<R: Revision>(p: Polygon<'_>, point_box: &[f64]) -> bool
    requires { (2 ≤ p.count) × (2 * p.dim ≤ length point_box.now) }
    ensures { let q = p.entry in
        result ≡ meets (arithmetic R.second) q.dim (vector q 0) (vector q 1) (union_s ZERO ONE) 0
        (scalars_of q.dim point_box.now) }
{
    let mut range = Scalar::ZERO.union(Scalar::ONE);
    for k in 0..p.dim {
        let a = place::<R>(p, 0, k);
        let b = place::<R>(p, 1, k);
        if let Some(t) = along::<R>(scalar_at(point_box, k), a, b) {
            if !t.could_be_equal(range) {
                return false;
            }
            range = t.intersect(range);
        }
    }
    true
}

// The boxes overlap, and where the curve is a straight segment the segment itself could meet the lent box.
pub(crate) fn curve_could_meet_aabb<R: Revision>(
    p: Polygon<'_>,
    point_box: &[f64],
    degree: usize,
) -> bool
    requires { (1 ≤ p.count) × (2 * p.dim ≤ length point_box.now) }
    ensures { let q = p.entry in
        result ≡ could_meet (arithmetic R.second) q.dim degree (vectors q) (scalars_of q.dim point_box.now) }
{
    if !aabb_could_overlap::<R>(p, point_box) {
        return false;
    }
    if degree == 1 && p.count == 2 {
        return meets::<R>(p, point_box);
    }
    true
}
