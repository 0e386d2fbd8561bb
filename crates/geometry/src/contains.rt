// contains/curve.rs: the search for the parameters at which a curve passes through a box.

ghost use Rattle.std.specs.Prelude.{◌≡◌, ◌+◌, ◌*◌, ◌≤◌, ◌<◌, length};
ghost use Rattle.math.specs.Revision.{arithmetic};
ghost use Rattle.model.specs.Contains.{visit};
ghost use Rattle.model.specs.Subdivide.{positive_zero, complete};
ghost use Rattle.model.specs.Call.{lent};
ghost use Rattle.model.specs.Enclosure.{Doubles, Accepted};
ghost use Rattle.model.specs.Promise.{Answers};
ghost use Rattle.geometry.specs.Call.{call_in, Searches};
ghost use Rattle.geometry.specs.Slots.{words_of, piece_at, depth_at, Inside, Waits, Fit};
ghost use Rattle.geometry.specs.Ring.{base_of, ring_base, Ring};
ghost use Rattle.geometry.specs.State.{found_of, with_depths, asked_of, Turned, Begins, RingSearched};

use crate::aabb::curve_could_meet_aabb;
use crate::call::{Lent, slot_words, stated_words};
use crate::slots::{Shape, depth_at, fill, load, set_depth, slot_base};
use crate::subdivide::{Outcome, Search, after_visit, has_bad_weight, wrap};
use crate::visits::visit;
use math::revision::{First, Revision, Second};
use math::scalars::Scalar;
use model::contains::Found;
use model::refusal::Refusal;
use model::subdivide::Counts;

// ---- the answer

// A number as it is given out, with no negative zero.
pub fn positive_zero(x: f64) -> f64
    ensures { result ≡ positive_zero x }
{
    if x == 0.0 { 0.0 } else { x }
}

// The answer when every piece was visited.
fn completed(f: Option<Scalar>, v: Counts) -> Found
    ensures { result ≡ complete (found_of f) v }
{
    match f {
        None => Found::Nothing(v),
        Some(t) => {
            let lo = positive_zero(t.lo);
            let hi = positive_zero(t.hi);
            Found::Enclosed(lo, hi, v)
        }
    }
}

// ---- the search
// (w, the words of a slot, follows from s, but is handed on: it is worked out once for a search.)

// The depth of the first piece that waits, in slots of w words.
fn next_depth(work: &[f64], q: Search, s: Shape, w: usize) -> usize
    requires waits { Waits s work.now (base_of s q.head) × (w ≡ words_of s) }
    requires head_bound { depth_at s work.now (base_of s q.head) ≤ 0x1000 }
    ensures { result ≡ depth_at s work.now (base_of s q.head) }
{
    depth_at(work, slot_base(0, w, q.head), w)
}

// The depths of what the visit of a piece of depth d hands on, into its slots at a and b, of w words: halves are one deeper.
fn set_depths(work: &mut [f64], a: usize, b: usize, s: Shape, w: usize, d: usize, o: Outcome)
    requires { Inside s work.old a × Inside s work.old b × (w ≡ words_of s) × (d ≤ 0x1000) }
    ensures { work.new ≡ with_depths s work.old a b d o }
{
    match o {
        Outcome::Dropped => {}
        Outcome::Reported(_) => {}
        Outcome::Restricted(_) => set_depth(work, a, w, d),
        Outcome::Halved => {
            set_depth(work, a, w, d + 1);
            set_depth(work, b, w, d + 1);
        }
        Outcome::BadWeight => {}
    }
}

// The visit of the first piece that waits, whose depth is d, in a ring of so many slots of w words.
fn visit_next<R: Revision>(
    work: &mut [f64],
    q: Search,
    s: Shape,
    point_box: &[f64],
    resolution: f64,
    slots: usize,
    w: usize,
    d: usize,
) -> Outcome
    requires ring { Ring s work.old slots q.head q.pending × (1 ≤ q.pending) × (q.pending + 1 < slots) }
    requires slots_bound { (slots ≤ 0x1000_0000) × (w ≡ words_of s) × (d ≤ 0x1000) }
    requires fit { Fit (arithmetic R.second) s (piece_at s work.old (base_of s q.head)) × (2 * s.dim ≤ length point_box.now) }
    ensures { let l = work.old in
        let seen = visit (arithmetic R.second) (asked_of s point_box.now resolution 0) (piece_at s l (base_of s q.head)) in
        let a = ring_base s slots q.head q.pending in
        let b = ring_base s slots q.head (q.pending + 1) in
        Turned seen s a b d l work.new result }
{
    let head = q.head;
    let pending = q.pending;
    let a = slot_base(0, w, wrap(head + pending, slots));
    let b = slot_base(0, w, wrap(head + (pending + 1), slots));
    let o = visit::<R>(work, slot_base(0, w, head), a, b, s, point_box, resolution);
    set_depths(work, a, b, s, w, d, o);
    o
}

// The search of the piece in slot 0, over a ring of nodes + 3 slots.
fn search_ring<R: Revision>(
    work: &mut [f64],
    s: Shape,
    point_box: &[f64],
    resolution: f64,
    nodes: usize,
) -> Found
    requires begins { Begins (arithmetic R.second) s (asked_of s point_box.now resolution nodes) work.old }
    requires dim_in_bounds { 2 * s.dim ≤ length point_box.now }
    ensures { let asked = asked_of s point_box.now resolution nodes in
        RingSearched (arithmetic R.second) s asked work.old work.new result }
{
    let w = slot_words(s.dim, s.degree, s.count);
    let slots = nodes + 3;
    let mut q = Search {
        head: 0,
        pending: 1,
        counts: Counts::NONE,
        found: None,
    };
    // no index: until no piece waits
    while 0 < q.pending {
        let v = q.counts;
        if v.visited == nodes {
            return Found::Spent(q.pending, v);
        }
        let d = next_depth(work, q, s, w);
        let o = visit_next::<R>(work, q, s, point_box, resolution, slots, w, d);
        q = after_visit(q, d, o, slots);
        if has_bad_weight(o) {
            return Found::Refused(Refusal::Piece, q.counts);
        }
    }
    completed(q.found, q.counts)
}

// The search of a call that nothing is wrong with, in a revision. The stated words of the work area are 0 at its end.
fn search_lent<R: Revision>(q: Lent<'_>, work: &mut [f64]) -> Found
    requires { let c = call_in q (length work.old) in
        Accepted c × Doubles c }
    ensures { let c = call_in q.entry (length work.old) in
        Searches (arithmetic R.second) c work.old work.new result }
{
    let dim = q.dim;
    let degree = q.degree;
    let count = q.count;
    let words = stated_words(dim, degree, count, q.nodes);
    if !curve_could_meet_aabb::<R>(q.polygon(), q.point_box, degree) {
        fill(work, 0, words, 0.0);
        return Found::Nothing(Counts::NONE);
    }
    let s = Shape { dim, degree, count };
    load(work, 0, s, q.knots, q.points);
    set_depth(work, 0, slot_words(dim, degree, count), 0);
    let r = search_ring::<R>(work, s, q.point_box, q.resolution, q.nodes);
    fill(work, 0, words, 0.0);
    r
}

// Whether the curve passes through the box, and between which two parameters.
//
// `rev` names the revision of the arithmetic: 1 is the Rust's, 2 the tightest bounds of IEEE 1788. Any other number is refused by 16.
// The curve has `count` control points, of `dim` coordinates and a weight, and `degree`. `points` holds lo and hi of each coordinate and,
// last, of the weight, one point behind the other; each coordinate is multiplied by the weight. `knots` are count + degree + 1 numbers.
// `point_box` holds lo and hi of the box on each axis. A piece is not halved where its size, or its part of the domain, is no larger than
// `resolution`; cutting it down to the part that may still meet the box (its hat) does not look at that. At most `nodes` pieces are
// visited. `work` is lent memory, of at least `stated_words` numbers. What it holds at the start changes nothing.
//
// `Nothing` says that no parameter is an exact hit, `Enclosed` that every exact hit lies between lo and hi. A parameter t is a rational number on the axis of
// the knots, from the knot numbered `degree` to the knot numbered `count`, counted from 0, both included.
//
// Nothing is asked of the caller: every input comes to a result. Each promise is a field of `Answers` (crates/model/specs/Promise.antt), under a sentence:
// result, paper, memory, encloses, within, zeros, order, debug.
pub fn curve_could_contain(
    rev: usize,
    dim: usize,
    degree: usize,
    count: usize,
    knots: &[f64],
    points: &[f64],
    point_box: &[f64],
    resolution: f64,
    nodes: usize,
    work: &mut [f64],
) -> Found
    ensures { let k = knots.now in let p = points.now in let b = point_box.now in
        let c = lent rev dim degree count k p b resolution nodes (length work.old) in
        Answers c work.old work.new result }
{
    let q = Lent {
        rev,
        dim,
        degree,
        count,
        knots,
        points,
        point_box,
        resolution,
        nodes,
    };
    if let Err(refused) = q.refusal(work.len()) {
        return Found::Refused(refused, Counts::NONE);
    }
    if rev == 2 {
        return search_lent::<Second>(q, work);
    }
    search_lent::<First>(q, work)
}
