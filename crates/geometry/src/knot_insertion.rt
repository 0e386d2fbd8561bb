// knot_insertion.rs: raising a parameter to full multiplicity in a slot. Knots are sharp, so a knot that could equal t is t.
ghost use Rattle.std.specs.Prelude.{◌≡◌, suc, ◌+◌, ◌-◌, ◌*◌, ◌≤◌, ◌<◌, ◌&&◌, length, eqb};
ghost use Rattle.std.specs.Float.Ieee.{eq};
ghost use Rattle.lists.specs.Lists.{part, put, tab, all, position};
ghost use Rattle.math.specs.Scalars.{sharp};
ghost use Rattle.math.specs.Revision.{arithmetic};
ghost use Rattle.model.specs.NurbCurve.{knot};
ghost use Rattle.model.specs.KnotInsertion.{holds_at, insertion_span, alpha, blend, knots_with, insert_once, insert_times};
ghost use Rattle.model.specs.KnotInsertion.{bezier_knots, bezier_cut, multiplicity, is_bezier, boehm_cut, full_cut};
ghost use Rattle.model.specs.Layout.{flat};
ghost use Rattle.geometry.specs.Slots.{knots_from, place_of, count_at, vector_at, blend_at, between_at, with_sides};
ghost use Rattle.geometry.specs.Slots.{numbers, piece_at, placed, Inside, Held, CutAt};

use crate::slots::{Shape, copy, count_at, fill, knots_from, knots_in, place_of, set_count};
use crate::vector::interpolate;
use math::revision::Revision;
use math::scalars::Scalar;

// The parameter t is at or above knot k, and below the next.
fn holds_at(knots: &[f64], t: f64, k: usize) -> bool
    requires { k + 1 < length knots.now }
    ensures { result ≡ holds_at knots.now t k }
{
    !(t < knots[k]) && t < knots[k + 1]
}

// The highest span that holds t, of those numbered degree to count - 1; with none it is the degree.
pub(crate) fn find_insertion_span(knots: &[f64], degree: usize, count: usize, t: f64) -> usize
    requires { (degree ≤ count) × (count < length knots.now) }
    ensures { result ≡ insertion_span degree count knots.now t }
{
    for i in (degree..count).rev() {
        if holds_at(knots, t, i) {
            return i;
        }
    }
    degree
}

// How far t lies from knot i to knot i + degree: 0 or 1 where t is one of the two, and 1 where their difference may be zero.
pub(crate) fn alpha_at<R: Revision>(knots: &[f64], degree: usize, t: f64, i: usize) -> Scalar
    requires { i + degree < length knots.now }
    ensures { result ≡ alpha (arithmetic R.second) degree knots.now t i }
{
    let a = knots[i];
    let b = knots[i + degree];
    if a == t {
        return Scalar::ZERO;
    }
    if b == t {
        return Scalar::ONE;
    }
    let start = Scalar::from_f64(a);
    let run = R::sub(Scalar::from_f64(b), start);
    R::div(R::sub(Scalar::from_f64(t), start), run).unwrap_or(Scalar::ONE)
}

// How often t occurs among the knots.
pub(crate) fn multiplicity_of(knots: &[f64], t: f64) -> usize
    ensures { result ≡ multiplicity t knots.now }
{
    knots.iter().filter(|u| **u == t).count()
}

// The number of the first knot that is t, or the number of the knots where none is.
pub(crate) fn position_of(knots: &[f64], t: f64) -> usize
    ensures { result ≡ position (λ u. eq u t) knots.now }
{
    // by hand: `search` does not close the promise of `position` here
    for i in 0..knots.len() {
        if knots[i] == t {
            return i;
        }
    }
    knots.len()
}

// Each of the knots is v.
pub(crate) fn all_are(knots: &[f64], v: f64) -> bool
    ensures { result ≡ all (λ u. eq u v) knots.now }
{
    knots.iter().all(|u| *u == v)
}

// degree + 1 points, and only two values among the knots, degree + 1 times each.
pub(crate) fn is_bezier_span(knots: &[f64], degree: usize, count: usize) -> bool
    requires { (degree < count) × (count + degree < length knots.now) }
    ensures { result ≡ is_bezier degree count knots.now }
{
    let m = degree + 1;
    if count != m {
        return false;
    }
    if !all_are(&knots[..m], knots[0]) {
        return false;
    }
    all_are(&knots[m..], knots[m])
}

// The point of d intervals at b becomes the one a fraction alpha of the way from the point at a to it: unrounded where alpha is 0 or 1.
fn blend_into<R: Revision>(work: &mut [f64], a: usize, b: usize, d: usize, alpha: Scalar)
    requires { (a + 2 * d ≤ b) × (b + 2 * d ≤ length work.old) }
    ensures { let old = work.old in
        work.new ≡ put old b (flat (blend (arithmetic R.second) alpha (vector_at d old a) (vector_at d old b))) }
{
    if alpha == Scalar::ZERO {
        copy(work, a, b, 2 * d);
        return;
    }
    if alpha == Scalar::ONE {
        return;
    }
    interpolate::<R>(work, a, b, b, d, alpha);
}

// Point j + 1 of the slot at base, which has the knots of n points, becomes its blend with point j.
fn blend_point<R: Revision>(work: &mut [f64], base: usize, s: Shape, n: usize, j: usize, t: f64)
    requires { Inside s work.old base × (j + 1 < n) × (n ≤ s.count + s.degree + 1) }
    ensures { let old = work.old in
        work.new ≡ put old (place_of s base (suc j)) (flat (blend_at (arithmetic R.second) s old base n t j)) }
{
    let from = knots_from(base);
    let end = from + n + s.degree + 1;
    let alpha = alpha_at::<R>(&work[from..end], s.degree, t, j + 1);
    let a = place_of(s, base, j);
    let b = place_of(s, base, j + 1);
    blend_into::<R>(work, a, b, s.dim + 1, alpha);
}

// The points numbered k - degree + 1 to k become blends, the last one first.
fn blend_points<R: Revision>(work: &mut [f64], base: usize, s: Shape, n: usize, k: usize, t: f64)
    requires { Inside s work.old base × (s.degree ≤ k) × (k < n) × (n ≤ s.count + s.degree + 1) }
    ensures { let old = work.old in
        work.new ≡ put old (place_of s base (suc (k - s.degree)))
        (numbers (tab s.degree (λ j. blend_at (arithmetic R.second) s old base n t (k - s.degree + j)))) }
{
    for i in (k - s.degree..k).rev() {
        blend_point::<R>(work, base, s, n, i, t);
    }
}

// Of n points, those from number k on move up by one.
fn open_points(work: &mut [f64], base: usize, s: Shape, n: usize, k: usize)
    requires { Inside s work.old base × (k < n) × (n ≤ s.count + s.degree) }
    ensures { let old = work.old in
        work.new ≡ put old (place_of s base (suc k))
        (part old (place_of s base k) (place_of s base n - place_of s base k)) }
{
    let from = place_of(s, base, k);
    let to = place_of(s, base, k + 1);
    let end = place_of(s, base, n);
    copy(work, from, to, end - from);
}

// Of the m knots behind the count at base, those behind number k move up by one, and t is put in.
fn insert_knot(work: &mut [f64], base: usize, m: usize, k: usize, t: f64)
    requires { (k < m) × (knots_from base + m < length work.old) }
    ensures { let old = work.old in
        work.new ≡ put old (knots_from base) (knots_with k t (part old (knots_from base) m)) }
{
    let at = knots_from(base) + k + 1;
    copy(work, at, at + 1, m - k - 1);
    work[at] = t;
}

// The parameter t is inserted once, in span k, into the piece of the slot at base.
pub(crate) fn insert_once<R: Revision>(work: &mut [f64], base: usize, s: Shape, k: usize, t: f64)
    requires { Held s work.old base × (s.degree ≤ k) × (k < count_at work.old base)
        × (count_at work.old base ≤ s.count + s.degree) }
    ensures { let old = work.old in
        let c = piece_at s old base in
        work.new ≡ placed s old base (insert_once (arithmetic R.second) s.degree k t c) }
{
    let n = count_at(work, base);
    open_points(work, base, s, n, k);
    blend_points::<R>(work, base, s, n, k, t);
    insert_knot(work, base, n + s.degree + 1, k, t);
    set_count(work, base, n + 1);
}

// The span of the piece in the slot at base that holds t.
fn span_in(work: &[f64], base: usize, s: Shape, t: f64) -> usize
    requires { Held s work.now base × (s.degree ≤ count_at work.now base) }
    ensures { let old = work.now in
        let c = piece_at s old base in
        result ≡ insertion_span s.degree (length c.points) c.knots t }
{
    let n = count_at(work, base);
    find_insertion_span(knots_in(work, base, s), s.degree, n, t)
}

// The parameter t is inserted so many times into the piece of the slot at base, each time in the span that then holds it.
pub(crate) fn insert_times<R: Revision>(
    work: &mut [f64],
    base: usize,
    s: Shape,
    t: f64,
    times: usize,
)
    requires { Held s work.old base × (s.degree < count_at work.old base)
        × (count_at work.old base + times ≤ s.count + s.degree + 1) }
    ensures { let old = work.old in
        let c = piece_at s old base in
        work.new ≡ placed s old base (insert_times (arithmetic R.second) s.degree t times c) }
{
    for _ in 0..times {
        let k = span_in(work, base, s, t);
        insert_once::<R>(work, base, s, k, t);
    }
}

// Point j + 1 of the slot at base becomes the one a fraction alpha of the way from point j to it.
fn between_point<R: Revision>(work: &mut [f64], base: usize, s: Shape, j: usize, alpha: Scalar)
    requires { Inside s work.old base × (j < s.count + s.degree) }
    ensures { let old = work.old in
        work.new ≡ put old (place_of s base (suc j)) (flat (between_at (arithmetic R.second) s old base alpha j)) }
{
    let a = place_of(s, base, j);
    let b = place_of(s, base, j + 1);
    interpolate::<R>(work, a, b, b, s.dim + 1, alpha);
}

// The points numbered r + 1 to degree become points between, the last one first: the next row of the triangle in the place of a row that begins at point r.
fn next_row<R: Revision>(work: &mut [f64], base: usize, s: Shape, r: usize, alpha: Scalar)
    requires { Inside s work.old base × (r ≤ s.degree) × (s.degree < s.count) }
    ensures { let old = work.old in
        work.new ≡ put old (place_of s base (suc r))
        (numbers (tab (s.degree - r) (λ j. between_at (arithmetic R.second) s old base alpha (r + j)))) }
{
    for i in (r..s.degree).rev() {
        between_point::<R>(work, base, s, i, alpha);
    }
}

// Point j of the slot at base becomes point i.
fn copy_point(work: &mut [f64], base: usize, s: Shape, i: usize, j: usize)
    requires { Inside s work.old base × (i < j) × (j ≤ s.count + s.degree) }
    ensures { let old = work.old in
        work.new ≡ put old (place_of s base j) (flat (vector_at (suc s.dim) old (place_of s base i))) }
{
    let a = place_of(s, base, i);
    let b = place_of(s, base, j);
    copy(work, a, b, 2 * (s.dim + 1));
}

// The degree + 1 points of the slot at base become the two sides of their triangle. It runs in this slot, the one that the cut writes, and no points are held elsewhere:
// each row takes the place of the row before. Its first point is the left side's, and stays where it stands; its last one is copied behind, where the right side grows from
// its end. Each point of the next row is written over the farther of the two that it lies between: over the nearer, the left side would be lost. So a row is made from its
// far end: from the near one, points would be lost that it has yet to read.
fn triangle_in<R: Revision>(work: &mut [f64], base: usize, s: Shape, alpha: Scalar)
    requires { Inside s work.old base × (s.degree < s.count) }
    ensures { work.new ≡ with_sides (arithmetic R.second) s work.old base alpha }
{
    let p = s.degree;
    let end = 2 * p + 1;
    for r in 0..p {
        copy_point(work, base, s, p, end - r);
        next_row::<R>(work, base, s, r, alpha);
    }
    copy_point(work, base, s, p, p + 1);
}

// The knots behind the count at base become those of a Bezier span from a to b that is cut at t.
fn bezier_knots(work: &mut [f64], base: usize, degree: usize, a: f64, t: f64, b: f64)
    requires { (degree ≤ 7) × (base + 3 * degree + 4 ≤ length work.old) }
    ensures { work.new ≡ put work.old (knots_from base) (bezier_knots degree a t b) }
{
    let m = degree + 1;
    let first = knots_from(base);
    let second = first + m;
    fill(work, first, m, a);
    fill(work, second, m, t);
    fill(work, second + m, m, b);
}

// The piece in the slot at base, a Bezier span, is cut there at t by the triangle, where alpha says how far t lies along it.
fn split_bezier_span<R: Revision>(work: &mut [f64], base: usize, s: Shape, t: f64, alpha: Scalar)
    requires { Held s work.old base × (count_at work.old base ≡ suc s.degree) × (s.degree < s.count) }
    ensures { let old = work.old in
        let c = piece_at s old base in
        work.new ≡ placed s old base (bezier_cut (arithmetic R.second) s.degree t alpha c).piece }
{
    let p = s.degree;
    let first = knots_from(base);
    let a = work[first + p];
    let b = work[first + p + 1];
    triangle_in::<R>(work, base, s, alpha);
    bezier_knots(work, base, p, a, t, b);
    set_count(work, base, 2 * p + 2);
}

// How often t is missing among the knots of the slot at base.
fn missing_in(work: &[f64], base: usize, s: Shape, t: f64) -> usize
    requires { Held s work.now base }
    ensures { result ≡ suc s.degree - multiplicity t (piece_at s work.now base).knots }
{
    let m = multiplicity_of(knots_in(work, base, s), t);
    let full = s.degree + 1;
    full.saturating_sub(m)
}

// The number of the first knot of the slot at base that is t.
fn position_in(work: &[f64], base: usize, s: Shape, t: f64) -> usize
    requires { Held s work.now base }
    ensures { result ≡ position (λ u. eq u t) (piece_at s work.now base).knots }
{
    position_of(knots_in(work, base, s), t)
}

// The piece in the slot at base is cut at t by as many insertions as are missing.
fn boehm_cut<R: Revision>(work: &mut [f64], base: usize, s: Shape, t: f64) -> usize
    requires { Held s work.old base × (s.degree < count_at work.old base) × (count_at work.old base ≤ s.count) }
    ensures { let old = work.old in
        let c = piece_at s old base in
        CutAt s old work.new base (boehm_cut (arithmetic R.second) s.degree t c) result }
{
    let times = missing_in(work, base, s, t);
    insert_times::<R>(work, base, s, t, times);
    position_in(work, base, s, t)
}

// The piece in the slot at base is a Bezier span that t is no knot of.
fn is_bezier_in(work: &[f64], base: usize, s: Shape, t: f64) -> bool
    requires { Held s work.now base × (s.degree < count_at work.now base) }
    ensures { let old = work.now in
        let c = piece_at s old base in
        result ≡ (eqb (multiplicity t c.knots) 0 && is_bezier s.degree (length c.points) c.knots) }
{
    let n = count_at(work, base);
    let knots = knots_in(work, base, s);
    multiplicity_of(knots, t) == 0 && is_bezier_span(knots, s.degree, n)
}

// How far t lies along the span that begins at the domain's start, in the slot at base.
fn along_in<R: Revision>(work: &[f64], base: usize, s: Shape, t: f64) -> Option<Scalar>
    requires { Held s work.now base × (s.degree < count_at work.now base) }
    ensures { let old = work.now in
        let c = piece_at s old base in
        result ≡ (arithmetic R.second).div ((arithmetic R.second).sub (sharp t) (sharp (knot c.knots s.degree)))
        ((arithmetic R.second).sub (sharp (knot c.knots (suc s.degree))) (sharp (knot c.knots s.degree))) }
{
    let at = knots_from(base) + s.degree;
    let a = Scalar::from_f64(work[at]);
    let b = Scalar::from_f64(work[at + 1]);
    R::div(R::sub(Scalar::from_f64(t), a), R::sub(b, a))
}

// The parameter t, strictly inside the domain, is raised to multiplicity degree + 1 in the slot at base. The result is the number of the point at which the piece separates.
pub(crate) fn insert_to_full_multiplicity<R: Revision>(
    work: &mut [f64],
    base: usize,
    s: Shape,
    t: f64,
) -> usize
    requires { Held s work.old base × (s.degree < count_at work.old base) × (count_at work.old base ≤ s.count) }
    ensures { let old = work.old in
        let c = piece_at s old base in
        CutAt s old work.new base (full_cut (arithmetic R.second) s.degree t c) result }
{
    if !is_bezier_in(work, base, s, t) {
        return boehm_cut::<R>(work, base, s, t);
    }
    match along_in::<R>(work, base, s, t) {
        Some(alpha) => {
            split_bezier_span::<R>(work, base, s, t, alpha);
            s.degree + 1
        }
        None => boehm_cut::<R>(work, base, s, t),
    }
}
