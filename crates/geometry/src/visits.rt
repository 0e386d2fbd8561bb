// contains/curve.rs, the visits: the clip of a piece, what is to be made of it, and the making.

ghost use Rattle.std.specs.Prelude.{◌≡◌, ℕ, suc, ◌+◌, ◌*◌, ◌≤◌, ◌<◌, length};
ghost use Rattle.lists.specs.Lists.{put};
ghost use Rattle.math.specs.Revision.{arithmetic};
ghost use Rattle.model.specs.Layout.{scalars_of};
ghost use Rattle.geometry.specs.Polygon.{vectors};
ghost use Rattle.model.specs.NurbCurve.{domain, weights_positive};
ghost use Rattle.model.specs.FatLine.{greville, fat_line_zeros};
ghost use Rattle.model.specs.Split.{split_mid, restrict};
ghost use Rattle.model.specs.Contains.{axis, narrowed, clip, hand_on, hand_both, visit};
ghost use Rattle.geometry.specs.Zeros.{from_first};
ghost use Rattle.geometry.specs.Slots.{piece_at, Inside, Held, Apart, Whole, Fit};
ghost use Rattle.geometry.specs.State.{asked_of, Visited};
ghost use Rattle.geometry.specs.Plan.{plan_hat, plan_clip, planned};

use crate::aabb::aabb_could_overlap;
use crate::fat_line::{carried, fat_line_zeros, from_first, greville_abscissae, halves, restricts};
use crate::nurb_curve::{Polygon, domain, repeats, scalar_at};
use crate::slots::{Shape, knots_in, points_in};
use crate::split::{restrict, split_mid};
use crate::subdivide::Outcome;
use math::revision::Revision;
use math::scalars::Scalar;

// A weight, beside its product with a factor.
#[derive(Clone, Copy)]
struct Weighed {
    weight: Scalar,
    product: Scalar,
}

// The weight w beside its product with e, which is taken over from the last weight where w repeats it.
fn times_weight<R: Revision>(e: Scalar, w: Scalar, last: Weighed) -> Weighed
    requires { last.product ≡ (arithmetic R.second).mul e last.weight }
    ensures { (result.weight ≡ w) × (result.product ≡ (arithmetic R.second).mul e w) }
{
    let v = last.weight;
    if repeats(w, v) {
        return last;
    }
    Weighed {
        weight: w,
        product: R::times(e, w),
    }
}

// The values of axis k, one for each point, written to d: the coordinate less e times the weight.
fn axis<R: Revision>(p: Polygon<'_>, k: usize, e: Scalar, d: &mut [Scalar])
    requires { (1 ≤ p.count) × (k < p.dim) × (length d.old ≡ p.count) }
    ensures { let q = p.entry in
        d.new ≡ axis (arithmetic R.second) q.dim k e (vectors q) }
{
    let w = p.weight(0);
    let mut last = Weighed {
        weight: w,
        product: R::times(e, w),
    };
    for i in 0..p.count {
        last = times_weight::<R>(e, p.weight(i), last);
        d[i] = R::sub(p.coordinate(i, k), last.product);
    }
}

// The hat, held to the zeros of one axis more.
fn narrowed(hat: Scalar, zeros: Option<Scalar>) -> Option<Scalar>
    ensures { result ≡ narrowed hat zeros }
{
    let z = zeros?;
    if z.could_be_equal(hat) {
        return Some(hat.intersect(z));
    }
    None
}

// What axis k of the box leaves of a hat, where d is lent for the values of the axis, and dx has how far each abscissa lies
// from the first.
fn clip_axis<R: Revision>(
    xi: &[Scalar],
    dx: &[Scalar],
    p: Polygon<'_>,
    k: usize,
    e: Scalar,
    hat: Scalar,
    d: &mut [Scalar],
) -> Option<Scalar>
    requires lengths { (1 ≤ p.count) × (length xi.now ≡ p.count) × (length d.old ≡ p.count) }
    requires axis { k < p.dim }
    requires dx_value { dx.now ≡ from_first (arithmetic R.second) xi.now }
    ensures value { result ≡ narrowed hat (fat_line_zeros (arithmetic R.second) xi.now
        (axis (arithmetic R.second) p.entry.dim k e (vectors p.entry))) }
    ensures d_after { d.new ≡ axis (arithmetic R.second) p.entry.dim k e (vectors p.entry) }
{
    axis::<R>(p, k, e, d);
    narrowed(hat, fat_line_zeros::<R>(xi, dx, d))
}

// The hat that the axes of the box leave of the domain from start to end: no axis is taken once nothing is left.
pub(crate) fn clip<R: Revision>(
    xi: &[Scalar],
    p: Polygon<'_>,
    point_box: &[f64],
    start: f64,
    end: f64,
) -> Option<Scalar>
    requires { (1 ≤ p.count) × (p.count ≤ 32) × (length xi.now ≡ p.count) × (2 * p.dim ≤ length point_box.now) }
    ensures { let q = p.entry in
        result ≡ clip (arithmetic R.second) q.dim (vectors q) xi.now (domain start end) 0 (scalars_of q.dim point_box.now) }
{
    let count = p.count;
    let mut dx = [Scalar::ZERO; 32];
    from_first::<R>(xi, &mut dx[..count]);
    let mut d = [Scalar::ZERO; 32];
    let mut hat = domain(start, end);
    for k in 0..p.dim {
        let e = scalar_at(point_box, k);
        hat = clip_axis::<R>(xi, &dx[..count], p, k, e, hat, &mut d[..count])?;
    }
    Some(hat)
}

// ---- the plan of a visit

// What a visit is to make of its piece.
#[derive(Clone, Copy)]
pub enum Plan {
    // It holds nothing.
    Skip,
    // It cannot be made smaller: its hat.
    Report(Scalar),
    // It is to be cut down to its hat.
    Restrict(Scalar),
    // It is to be cut in two: its hat, for where it cannot be.
    Halve(Scalar),
}

// What to make of a piece with a hat, on a domain from a to b.
fn plan_hat<R: Revision>(
    p: Polygon<'_>,
    point_box: &[f64],
    a: f64,
    b: f64,
    hat: Scalar,
    resolution: f64,
) -> Plan
    requires { (1 ≤ p.count) × (2 * p.dim ≤ length point_box.now) }
    ensures { let q = p.entry in
        result ≡ plan_hat (arithmetic R.second) q.dim (scalars_of q.dim point_box.now) resolution a b (vectors q) hat }
{
    let w = carried(p, point_box);
    if restricts::<R>(p, a, b, hat, w) {
        return Plan::Restrict(hat);
    }
    if halves(p, a, b, w, resolution) {
        return Plan::Halve(hat);
    }
    Plan::Report(hat)
}

// What to make of a piece whose box does not miss.
fn plan_clip<R: Revision>(
    knots: &[f64],
    p: Polygon<'_>,
    point_box: &[f64],
    degree: usize,
    resolution: f64,
) -> Plan
    requires dim_bound { (1 ≤ p.count) × (2 * p.dim ≤ length point_box.now) }
    requires degree_bound { (degree ≤ 7) × (p.count ≤ 32) × (p.count + degree + 1 ≤ length knots.now) }
    ensures { let q = p.entry in
        result ≡ plan_clip (arithmetic R.second) q.dim degree (scalars_of q.dim point_box.now) resolution
        (record { knots = knots.now; points = vectors q })
        (greville (arithmetic R.second) degree q.count knots.now) }
{
    let a = knots[degree];
    let b = knots[p.count];
    let Some(xi) = greville_abscissae::<R>(knots, degree, p.count) else {
        return Plan::Report(domain(a, b));
    };
    let Some(hat) = clip::<R>(&xi[..p.count], p, point_box, a, b) else {
        return Plan::Skip;
    };
    plan_hat::<R>(p, point_box, a, b, hat, resolution)
}

// What a visit is to make of the piece with these knots and count points.
pub(crate) fn planned<R: Revision>(
    knots: &[f64],
    p: Polygon<'_>,
    point_box: &[f64],
    degree: usize,
    resolution: f64,
) -> Plan
    requires dim_bound { (1 ≤ p.count) × (2 * p.dim ≤ length point_box.now) }
    requires degree_bound { (degree ≤ 7) × (p.count ≤ 32) × (p.count + degree + 1 ≤ length knots.now) }
    ensures { let q = p.entry in
        result ≡ planned (arithmetic R.second) q.dim degree (scalars_of q.dim point_box.now) resolution
        (record { knots = knots.now; points = vectors q }) }
{
    if !aabb_could_overlap::<R>(p, point_box) {
        return Plan::Skip;
    }
    plan_clip::<R>(knots, p, point_box, degree, resolution)
}

// What a visit is to make of the piece in the slot at base.
fn plan_in<R: Revision>(
    work: &[f64],
    base: usize,
    s: Shape,
    point_box: &[f64],
    resolution: f64,
) -> Plan
    requires { Held s work.now base × Fit (arithmetic R.second) s (piece_at s work.now base)
        × (2 * s.dim ≤ length point_box.now) }
    ensures { let box = point_box.now in
        result ≡ planned (arithmetic R.second) s.dim s.degree (scalars_of s.dim box) resolution
        (piece_at s work.now base) }
{
    let knots = knots_in(work, base, s);
    let points = points_in(work, base, s);
    planned::<R>(knots, points, point_box, s.degree, resolution)
}

// Every weight of the piece in the slot at base has its lo above zero.
fn weights_positive_in(work: &[f64], base: usize, s: Shape) -> bool
    requires { Held s work.now base }
    ensures { result ≡ weights_positive s.dim (piece_at s work.now base).points }
{
    points_in(work, base, s).weights_positive()
}

// ---- the visit

// The piece in the slot at base is cut down to its hat, and handed on in the slot at a.
fn hand_on<R: Revision>(work: &mut [f64], base: usize, a: usize, s: Shape, hat: Scalar) -> Outcome
    requires { Held s work.old base × Fit (arithmetic R.second) s (piece_at s work.old base) × Inside s work.old a × Apart s base a
        × (1 ≤ s.degree) }
    ensures { let old = work.old in
        let c = piece_at s old base in
        ((b : ℕ) → Visited (hand_on s.dim (restrict (arithmetic R.second) s.degree hat.lo hat.hi c)) s a b old
        work.new result) }
{
    let cuts = restrict::<R>(work, base, a, s, hat.lo, hat.hi);
    if !weights_positive_in(work, a, s) {
        return Outcome::BadWeight;
    }
    Outcome::Restricted(cuts)
}

// The piece in the slot at base is cut in two, and the halves are handed on in the slots at a and b. Where there is no cut the hat is reported.
fn hand_both<R: Revision>(
    work: &mut [f64],
    base: usize,
    a: usize,
    b: usize,
    s: Shape,
    hat: Scalar,
) -> Outcome
    requires held { Held s work.old base × Whole s (piece_at s work.old base) × Inside s work.old a × Inside s work.old b }
    requires apart { Apart s base a × Apart s base b × Apart s a b }
    ensures { let old = work.old in
        let c = piece_at s old base in
        Visited (hand_both s.dim hat (split_mid (arithmetic R.second) s.degree c)) s a b old work.new result }
{
    if !split_mid::<R>(work, base, a, b, s) {
        return Outcome::Reported(hat);
    }
    if !weights_positive_in(work, a, s) {
        return Outcome::BadWeight;
    }
    if !weights_positive_in(work, b, s) {
        return Outcome::BadWeight;
    }
    Outcome::Halved
}

// The visit of the piece in the slot at base. What it hands on stands in the slots at a and b.
pub(crate) fn visit<R: Revision>(
    work: &mut [f64],
    base: usize,
    a: usize,
    b: usize,
    s: Shape,
    point_box: &[f64],
    resolution: f64,
) -> Outcome
    requires held { Held s work.old base × Fit (arithmetic R.second) s (piece_at s work.old base)
        × (2 * s.dim ≤ length point_box.now) }
    requires inside { Inside s work.old a × Inside s work.old b × Apart s base a × Apart s base b × Apart s a b }
    ensures { let old = work.old in
        let box = point_box.now in
        let c = piece_at s old base in
        Visited (visit (arithmetic R.second) (asked_of s box resolution 0) c) s a b old work.new result }
{
    match plan_in::<R>(work, base, s, point_box, resolution) {
        Plan::Skip => Outcome::Dropped,
        Plan::Report(t) => Outcome::Reported(t),
        Plan::Restrict(hat) => hand_on::<R>(work, base, a, s, hat),
        Plan::Halve(hat) => hand_both::<R>(work, base, a, b, s, hat),
    }
}
