// The slots of the work area: a piece of the curve in each, as specs/Slots.antt lays it out.
// A slot is named by its base (and `Held` says that it is one), and no type of its own: of the one slice that is lent a cut
// writes two slots, in either order, and what it promises is of the whole slice (`SplitAt`).
// Counts stand there as doubles, by `as`: the library has no other way from the one to the other.
ghost use Rattle.std.specs.Prelude.{◌≡◌, ◌⊎◌, [], ◌∷◌, suc, ◌+◌, ◌-◌, ◌*◌, ◌≤◌, ◌<◌, length, get_or, replicate, T};
ghost use Rattle.std.specs.Float.{nan, binary64};
ghost use Rattle.std.specs.Float.Ieee.{in_unsigned};
ghost use Rattle.lists.specs.Lists.{part, put};
ghost use Rattle.model.specs.KnotInsertion.{left_of, right_of};
ghost use Rattle.model.specs.Layout.{points_of};
ghost use Rattle.geometry.specs.Polygon.{vectors};
ghost use Rattle.geometry.specs.Slots.{word, point_words, count_at, knots_from, place_of};
ghost use Rattle.geometry.specs.Slots.{piece_at, placed, Sized, Inside, Held, Apart};

use crate::nurb_curve::Polygon;

// What the pieces of a call have in common: the dimension, the degree, and the number of points of the whole curve.
#[derive(Clone, Copy)]
pub struct Shape {
    pub dim: usize,
    pub degree: usize,
    pub count: usize,
}

// The count at index i: at the base of a slot it is the number of its points, in its last word its depth.
pub(crate) fn count_at(work: &[f64], i: usize) -> usize
    requires i_in_bounds { i < length work.now }
    requires t { T (in_unsigned binary64 64 (get_or work.now i nan)) }
    ensures { result ≡ count_at work.now i }
{
    work[i] as usize
}

// The count at index i becomes n.
pub(crate) fn set_count(work: &mut [f64], i: usize, n: usize)
    requires { (i < length work.old) × (n ≤ 0x1_0000) }
    ensures { work.new ≡ put work.old i (word n ∷ []) }
{
    work[i] = n as f64;
}

// Where slot number j begins, of slots of w words from an origin on.
pub(crate) fn slot_base(origin: usize, w: usize, j: usize) -> usize
    requires { origin + j * w < 0x1000_0000_0000_0000 }
    ensures { result ≡ origin + j * w }
{
    origin + j * w
}

// Where the knots of the slot at base begin.
pub(crate) fn knots_from(base: usize) -> usize
    requires { base < 0x1000_0000_0000_0000 }
    ensures { result ≡ knots_from base }
{
    base + 1
}

// Where point i of the slot at base begins.
pub(crate) fn place_of(s: Shape, base: usize, i: usize) -> usize
    requires { Sized s × (base < 0x1000_0000_0000_0000) × (i ≤ 64) }
    ensures { result ≡ place_of s base i }
{
    base + (s.count + 2 * s.degree + 3) + 2 * (s.dim + 1) * i
}

// The depth of the slot at base, of slots of w words: it stands in the last one.
pub(crate) fn depth_at(work: &[f64], base: usize, w: usize) -> usize
    requires w_nonzero { (0 < w) × (base + w ≤ length work.now) }
    requires t { T (in_unsigned binary64 64 (get_or work.now (base + (w - 1)) nan)) }
    ensures { result ≡ count_at work.now (base + (w - 1)) }
{
    count_at(work, base + (w - 1))
}

// That depth becomes d.
pub(crate) fn set_depth(work: &mut [f64], base: usize, w: usize, d: usize)
    requires { (0 < w) × (base + w ≤ length work.old) × (d ≤ 0x1_0000) }
    ensures { work.new ≡ put work.old (base + (w - 1)) (word d ∷ []) }
{
    set_count(work, base + (w - 1), d);
}

// The w words at b become those at a; the two may overlap.
pub(crate) fn copy(work: &mut [f64], a: usize, b: usize, w: usize)
    requires { (b + w ≤ length work.old) × (a + w ≤ length work.old) }
    ensures { work.new ≡ put work.old b (part work.old a w) }
{
    work.copy_within(a..a + w, b);
}

// The knots of the piece in the slot at base.
pub(crate) fn knots_in(work: &[f64], base: usize, s: Shape) -> &[f64]
    requires { Held s work.now base }
    ensures { result.now ≡ (piece_at s work.now base).knots }
{
    let n = count_at(work, base);
    let from = knots_from(base);
    let end = from + n + s.degree + 1;
    &work[from..end]
}

// The control points of the piece in the slot at base.
pub(crate) fn points_in(work: &[f64], base: usize, s: Shape) -> Polygon<'_>
    requires { Held s work.now base }
    ensures { (result.dim ≡ s.dim) × (result.count ≡ count_at work.now base)
        × (vectors result ≡ (piece_at s work.now base).points) }
{
    let count = count_at(work, base);
    let from = place_of(s, base, 0);
    let end = place_of(s, base, count);
    Polygon {
        words: &work[from..end],
        dim: s.dim,
        count,
    }
}

// The words at a become those of the source.
// (By a loop, which becomes a call of memcpy: `copy_from_slice` becomes one of memmove, and the library calls nothing but
// memcpy and memset.)
pub(crate) fn write(work: &mut [f64], a: usize, source: &[f64])
    requires { a + length source.now ≤ length work.old }
    ensures { work.new ≡ put work.old a source.now }
{
    for i in 0..source.len() {
        work[a + i] = source[i];
    }
}

// The slot at base holds the whole curve, from its knots and the numbers of its points.
pub(crate) fn load(work: &mut [f64], base: usize, s: Shape, knots: &[f64], points: &[f64])
    requires { Inside s work.old base × (length knots.now ≡ s.count + s.degree + 1)
        × (length points.now ≡ point_words s * s.count) }
    ensures { work.new ≡ placed s work.old base
        (record { knots = knots.now; points = points_of (suc s.dim) s.count points.now }) }
{
    let from = place_of(s, base, 0);
    write(work, from, points);
    write(work, knots_from(base), knots);
    set_count(work, base, s.count);
}

// The slot at to holds what is right of point `at` of the piece in the slot at from, which is another slot or the same.
pub(crate) fn copy_right(work: &mut [f64], from: usize, to: usize, s: Shape, at: usize)
    requires held { Held s work.old from × Inside s work.old to × (at ≤ count_at work.old from) }
    requires apart { Apart s from to ⊎ (from ≡ to) }
    ensures { let old = work.old in
        work.new ≡ placed s old to (right_of (record { piece = piece_at s old from; at = at })) }
{
    let n = count_at(work, from);
    copy(
        work,
        knots_from(from) + at,
        knots_from(to),
        n - at + s.degree + 1,
    );
    let first = place_of(s, from, at);
    let end = place_of(s, from, n);
    copy(work, first, place_of(s, to, 0), end - first);
    set_count(work, to, n - at);
}

// Of the piece in the slot at base, what is left of point `at` is kept.
pub(crate) fn keep_left(work: &mut [f64], base: usize, s: Shape, at: usize)
    requires { Held s work.old base × (at ≤ count_at work.old base) }
    ensures { let old = work.old in
        let c = piece_at s old base in
        work.new ≡ placed s old base (left_of s.degree (record { piece = c; at = at })) }
{
    set_count(work, base, at);
}

// The n words at a become v.
pub(crate) fn fill(work: &mut [f64], a: usize, n: usize, v: f64)
    requires { a + n ≤ length work.old }
    ensures { work.new ≡ put work.old a (replicate n v) }
{
    work[a..a + n].fill(v);
}
