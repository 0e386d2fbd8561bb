// fat_line.rs: the zeros of a spline function by its fat line.
ghost use Rattle.std.specs.Prelude.{◌≡◌, cond, ◌||◌, ◌+◌, ◌*◌, ◌≤◌, ◌<◌, suc, length, ltb};
ghost use mathlib.Core.List.{zip_with, map};
ghost use Rattle.lists.specs.Lists.{put};
ghost use Rattle.math.specs.Scalars.{geop, ZERO, zero_f, sharp, middle, width_s};
ghost use Rattle.math.specs.Tight.{tight};
ghost use Rattle.math.specs.Revision.{arithmetic};
ghost use Rattle.math.specs.Bounds.{over_s, divisor_of};
ghost use Rattle.model.specs.Layout.{scalars_of};
ghost use Rattle.geometry.specs.Polygon.{vector, vectors};
ghost use Rattle.model.specs.Aabb.{unions};
ghost use Rattle.model.specs.FatLine.{window, greville, crossing, fat_line_zeros, cartesian, square, distance};
ghost use Rattle.model.specs.FatLine.{extent, to_f64, widest, carried_by, carried_width, restricts, halves};
ghost use Rattle.geometry.specs.Abscissae.{summed, mean_over, held};
ghost use Rattle.geometry.specs.Zeros.{from_first, chord_at, off_run, level_zeros, sloped_zeros};
ghost use Rattle.std.specs.Float.{binary64};
ghost use Rattle.std.specs.Float.Ieee.{add, sub, div, lt};
ghost use Rattle.math.specs.Picks.{max_f};
ghost use Rattle.model.specs.Vector.{coordinate};
ghost use Rattle.model.specs.NurbCurve.{domain, in_domain};
ghost use Rattle.model.specs.Contains.{carried};
ghost use Rattle.geometry.specs.Sizes.{position_of, squared, steps};

use crate::nurb_curve::{Polygon, domain, in_domain, scalar_at};
use math::bounds::Divisor;
use math::floats::{max, next_up};
use math::revision::Revision;
use math::root::sqrt;
use math::scalars::Scalar;

// The knots i + 1 to i + degree, as a part of the knots that were lent.
pub(crate) fn window(knots: &[f64], i: usize, degree: usize) -> &[f64]
    requires { i + degree + 1 ≤ length knots.now }
    ensures { result.now ≡ window degree knots.now i }
{
    &knots[i + 1..i + degree + 1]
}

// The sum of a window of knots, over their number: their mean.
fn abscissa<R: Revision>(w: &[f64], number: Divisor) -> Scalar
    requires { R.Own number }
    ensures { result ≡ mean_over (arithmetic R.second) w.now number.value }
{
    let mut sum = Scalar::ZERO;
    for &u in w {
        sum = R::add(sum, Scalar::from_f64(u));
    }
    R::over(sum, number)
}

// One abscissa for each point, at the front; none where the degree is 0.
pub(crate) fn greville_abscissae<R: Revision>(
    knots: &[f64],
    degree: usize,
    count: usize,
) -> Option<[Scalar; 32]>
    requires { (degree ≤ 7) × ((count ≤ 32) × (count + degree ≤ length knots.now)) }
    ensures { result ≡ held (greville (arithmetic R.second) degree count knots.now) }
{
    if degree == 0 {
        return None;
    }
    let number = R::divisor(Scalar::from_f64(degree as f64));
    let mut xi = [Scalar::ZERO; 32];
    for i in 0..count {
        xi[i] = abscissa::<R>(window(knots, i, degree), number);
    }
    Some(xi)
}

// The union of some intervals.
pub(crate) fn unions(l: &[Scalar]) -> Scalar
    requires { 0 < length l.now }
    ensures { result ≡ unions l.now }
{
    let mut all = l[0];
    for i in 1..l.len() {
        all = all.union(l[i]);
    }
    all
}

// How far each abscissa lies from the first, written to dx.
pub(crate) fn from_first<R: Revision>(xi: &[Scalar], dx: &mut [Scalar])
    requires { (0 < length xi.now) × (length dx.old ≡ length xi.now) }
    ensures { dx.new ≡ from_first (arithmetic R.second) xi.now }
{
    for i in 0..xi.len() {
        dx[i] = R::sub(xi[i], xi[0]);
    }
}

// The chord from a point of value y0, at a run of x from there.
pub(crate) fn chord<R: Revision>(slope: Scalar, y0: Scalar, x: Scalar) -> Scalar
    ensures { result ≡ chord_at (arithmetic R.second) slope y0 x }
{
    R::add(y0, R::times(slope, x))
}

// The union of the offsets of all points, the first too.
pub(crate) fn band<R: Revision>(dx: &[Scalar], d: &[Scalar], slope: Scalar, y0: Scalar) -> Scalar
    requires { (0 < length d.now) × (length dx.now ≡ length d.now) }
    ensures { result ≡ unions (zip_with (λ x y. off_run (arithmetic R.second) slope y0 x y) dx.now d.now) }
{
    let mut all = R::bounds_sub(d[0], chord::<R>(slope, y0, dx[0]));
    for i in 1..d.len() {
        all = R::join(all, R::bounds_sub(d[i], chord::<R>(slope, y0, dx[i])));
    }
    R::close(all)
}

// The zeros where the chord has no slope, of values in this range: anywhere, if some value could be zero.
pub(crate) fn level_zeros(range: Scalar) -> Option<Scalar>
    ensures { result ≡ level_zeros range }
{
    if range.could_be_equal(Scalar::ZERO) {
        return Some(Scalar::entire());
    }
    None
}

// Where the band crosses zero: anywhere, if the chord could be level.
pub(crate) fn crossing<R: Revision>(x0: Scalar, q: Option<Scalar>) -> Option<Scalar>
    ensures { result ≡ crossing (arithmetic R.second) x0 q }
{
    let Some(v) = q else {
        return Some(Scalar::entire());
    };
    Some(R::sub(x0, v))
}

// The zeros where the chord has a slope: nowhere, if the band misses zero from the first point to the last.
pub(crate) fn sloped_zeros<R: Revision>(
    slope: Scalar,
    x0: Scalar,
    y0: Scalar,
    last: Scalar,
    band: Scalar,
) -> Option<Scalar>
    ensures { result ≡ sloped_zeros (arithmetic R.second) slope x0 y0 last band }
{
    let range = R::add(y0.union(last), band);
    if range.could_be_equal(Scalar::ZERO) {
        return crossing::<R>(x0, R::div(R::add(y0, band), slope));
    }
    None
}

// Where the spline could be zero whose graph has the control polygon (xi i, d i). How far each abscissa lies from the first
// stands in dx.
pub(crate) fn fat_line_zeros<R: Revision>(
    xi: &[Scalar],
    dx: &[Scalar],
    d: &[Scalar],
) -> Option<Scalar>
    requires lengths { (0 < length d.now) × (length xi.now ≡ length d.now) }
    requires dx_value { dx.now ≡ from_first (arithmetic R.second) xi.now }
    ensures { result ≡ fat_line_zeros (arithmetic R.second) xi.now d.now }
{
    let last = d[d.len() - 1];
    let run = dx[d.len() - 1];
    match R::div(R::sub(last, d[0]), run) {
        Some(slope) => {
            sloped_zeros::<R>(slope, xi[0], d[0], last, band::<R>(dx, d, slope, d[0]))
        }
        None => level_zeros(unions(d)),
    }
}

// ---- sizes: plain doubles, for choices that need not be exact

// The place of a point as plain doubles: as many of the three as there are coordinates, the others 0.
#[derive(Clone, Copy)]
struct Position {
    x: f64,
    y: f64,
    z: f64,
}

// The middle of coordinate k of point i over w, and 0 where there is no such coordinate.
fn cartesian_at(p: Polygon<'_>, i: usize, k: usize, w: f64) -> f64
    requires { i < p.count }
    ensures { result ≡ cond (ltb k p.entry.dim) (div binary64 (middle (coordinate (vector p.entry i) k)) w)
        zero_f }
{
    if k < p.dim {
        return p.coordinate(i, k).to_f64() / w;
    }
    0.0
}

// The middle of each coordinate of point i, over the middle of its weight.
fn cartesian(p: Polygon<'_>, i: usize) -> Position
    requires { i < p.count }
    ensures { position_of p.entry.dim result ≡ cartesian p.entry.dim (vector p.entry i) }
{
    let w = p.weight(i).to_f64();
    let x = cartesian_at(p, i, 0, w);
    let y = cartesian_at(p, i, 1, w);
    let z = cartesian_at(p, i, 2, w);
    Position { x, y, z }
}

// The sum with the square of y - x, where there is a coordinate k.
fn with_square(sum: f64, dim: usize, k: usize, x: f64, y: f64) -> f64
    ensures { result ≡ cond (ltb k dim) (add binary64 sum (square (sub binary64 y x))) sum }
{
    if k < dim {
        let d = y - x;
        return sum + d * d;
    }
    sum
}

// The square of the distance from a to b.
fn squared(dim: usize, a: Position, b: Position) -> f64
    requires { dim ≤ 3 }
    ensures { result ≡ squared (position_of dim a) (position_of dim b) }
{
    let s = with_square(0.0, dim, 0, a.x, b.x);
    let t = with_square(s, dim, 1, a.y, b.y);
    with_square(t, dim, 2, a.z, b.z)
}

// The distance from a to b.
fn distance(dim: usize, a: Position, b: Position) -> f64
    requires { dim ≤ 3 }
    ensures { result ≡ distance (position_of dim a) (position_of dim b) }
{
    sqrt(squared(dim, a, b))
}

// The length of the control polygon, and 0 where that is a NaN.
pub(crate) fn extent(p: Polygon<'_>) -> f64
    requires { 1 ≤ p.count }
    ensures { result ≡ extent p.entry.dim (vectors p.entry) }
{
    let mut at = cartesian(p, 0);
    let mut sum = 0.0;
    for i in 1..p.count {
        let next = cartesian(p, i);
        sum = sum + distance(p.dim, at, next);
        at = next;
    }
    max(0.0, sum)
}

// The squares of the distances from each point to the next: their sum, and the greatest.
#[derive(Clone, Copy)]
struct Squares {
    total: f64,
    top: f64,
}

// The squares of the distances from each point to the next.
fn steps(p: Polygon<'_>) -> Squares
    requires { 1 ≤ p.count }
    ensures { result ≡ steps p.entry.dim (vectors p.entry) }
{
    let mut at = cartesian(p, 0);
    let mut total = 0.0;
    let mut top = 0.0;
    for i in 1..p.count {
        let next = cartesian(p, i);
        let s = squared(p.dim, at, next);
        total = total + s;
        top = max(top, s);
        at = next;
    }
    Squares { total, top }
}

// The length of the control polygon is above the limit. Mostly the squares of its steps show that, and no root is taken: one of them is above
// the square of the number next to the limit, and their sum shows that none is a NaN.
pub(crate) fn exceeds(p: Polygon<'_>, limit: f64) -> bool
    requires { 1 ≤ p.count }
    ensures { result ≡ lt limit (extent p.entry.dim (vectors p.entry)) }
{
    let next = next_up(limit);
    let s = steps(p);
    if next * next < s.top {
        if !s.total.is_nan() {
            return true;
        }
    }
    limit < extent(p)
}

// The greater of best and of the width of coordinate k of point i over w, where there is a coordinate k.
fn wider(best: f64, p: Polygon<'_>, i: usize, k: usize, w: f64) -> f64
    requires { i < p.count }
    ensures { result ≡ cond (ltb k p.entry.dim)
        (max_f best (div binary64 (to_f64 (width_s (coordinate (vector p.entry i) k))) w))
        best }
{
    if k < p.dim {
        return max(best, p.coordinate(i, k).width().to_f64() / w);
    }
    best
}

// The greater of best and of the width of each coordinate of point i over the middle of its weight.
fn carried_by(best: f64, p: Polygon<'_>, i: usize) -> f64
    requires { i < p.count }
    ensures { result ≡ carried_by p.entry.dim best (vector p.entry i) }
{
    let w = p.weight(i).to_f64();
    let b = wider(best, p, i, 0, w);
    let c = wider(b, p, i, 1, w);
    wider(c, p, i, 2, w)
}

// The widest coordinate of any point, over the middle of its weight.
pub(crate) fn carried_width(p: Polygon<'_>) -> f64
    ensures { result ≡ carried_width p.entry.dim (vectors p.entry) }
{
    let mut best = 0.0;
    for i in 0..p.count {
        best = carried_by(best, p, i);
    }
    best
}

// The widest of the first dim intervals of the lent box.
pub(crate) fn box_width(point_box: &[f64], dim: usize) -> f64
    requires { 2 * dim ≤ length point_box.now }
    ensures { result ≡ widest (map (λ e. to_f64 (width_s e)) (scalars_of dim point_box.now)) }
{
    let mut best = 0.0;
    for k in 0..dim {
        best = max(best, scalar_at(point_box, k).width().to_f64());
    }
    best
}

// The width that the points carry, or the lent box's own where it is wider.
pub(crate) fn carried(p: Polygon<'_>, point_box: &[f64]) -> f64
    requires { 2 * p.dim ≤ length point_box.now }
    ensures { let q = p.entry in
        result ≡ carried q.dim (scalars_of q.dim point_box.now) (vectors q) }
{
    max(carried_width(p), box_width(point_box, p.dim))
}

// ---- restriction and stalled, on a domain from a to b
// (The search calls `restricts` and `halves`; these two stay under the Rust's names, since oracle/kernels compares them.)

// The hat is definitely below four fifths of the domain.
fn narrow<R: Revision>(a: f64, b: f64, hat: Scalar) -> bool
    ensures { result ≡ lt (width_s hat) ((arithmetic R.second).mul (sharp (width_s (domain a b))) (arithmetic R.second).four_fifths).lo }
{
    let most = R::mul(domain(a, b).width(), R::four_fifths());
    hat.width().lo < most.lo
}

// A bound of the hat lies strictly inside the domain.
fn reaches_in(a: f64, b: f64, hat: Scalar) -> bool
    ensures { result ≡ in_domain a b hat.lo || in_domain a b hat.hi }
{
    in_domain(a, b, hat.lo) || in_domain(a, b, hat.hi)
}

// The piece is to be cut down to the hat: the size definitely exceeds the carried width, and the cut takes off enough.
pub(crate) fn restriction<R: Revision>(a: f64, b: f64, hat: Scalar, size: f64, carried: f64) -> bool
    ensures { result ≡ restricts (arithmetic R.second) a b hat size carried }
{
    if !(carried < size) {
        return false;
    }
    if !narrow::<R>(a, b, hat) {
        return false;
    }
    reaches_in(a, b, hat)
}

// The piece is to be halved: the size definitely exceeds the resolution and the carried width, and the domain's width the resolution.
pub(crate) fn stalled(a: f64, b: f64, size: f64, carried: f64, resolution: f64) -> bool
    ensures { result ≡ halves a b size carried resolution }
{
    if !(max(carried, resolution) < size) {
        return false;
    }
    if !(carried < size) {
        return false;
    }
    resolution < domain(a, b).width().lo
}

// `restriction` with the length of the control polygon as the size, which is looked at last.
pub(crate) fn restricts<R: Revision>(
    p: Polygon<'_>,
    a: f64,
    b: f64,
    hat: Scalar,
    carried: f64,
) -> bool
    requires { 1 ≤ p.count }
    ensures { result ≡ restricts (arithmetic R.second) a b hat (extent p.entry.dim (vectors p.entry)) carried }
{
    if !reaches_in(a, b, hat) {
        return false;
    }
    if !narrow::<R>(a, b, hat) {
        return false;
    }
    exceeds(p, carried)
}

// `stalled` with the length of the control polygon as the size, which is looked at last. What exceeds the greater of two numbers exceeds both.
pub(crate) fn halves(p: Polygon<'_>, a: f64, b: f64, carried: f64, resolution: f64) -> bool
    requires { 1 ≤ p.count }
    ensures { result ≡ halves a b (extent p.entry.dim (vectors p.entry)) carried resolution }
{
    if !(resolution < domain(a, b).width().lo) {
        return false;
    }
    if carried.is_nan() {
        return false;
    }
    exceeds(p, max(carried, resolution))
}
