// solvers/subdivide.rs: where a search stands between two visits, over a ring of slots.
ghost use Rattle.std.specs.Prelude.{◌≡◌, ◌+◌, ◌≤◌, ◌<◌};
ghost use Rattle.lists.specs.Ring.{wrapped};
ghost use Rattle.model.specs.Subdivide.{with_visit, with_cuts, joined};
ghost use Rattle.geometry.specs.State.{found_of, children, cuts_of, with_report, has_bad_weight, Next};

use math::scalars::Scalar;
use model::subdivide::Counts;

// What a visit made of its piece. What it hands on stands in the slots behind the pieces that wait.
#[derive(Clone, Copy)]
pub enum Outcome {
    // It holds nothing.
    Dropped,
    // It cannot be made smaller: its hat.
    Reported(Scalar),
    // It was cut down to its hat, by so many cuts.
    Restricted(usize),
    // It was cut in two.
    Halved,
    // A piece to hand on has a weight that is not above zero.
    BadWeight,
}

// Where a search stands: the slot of the first piece that waits, how many are pending, what was counted, and the union of
// what was reported, where something was.
#[derive(Clone, Copy)]
pub struct Search {
    pub head: usize,
    pub pending: usize,
    pub counts: Counts,
    pub found: Option<Scalar>,
}

// The number of the slot at place i of a ring of so many slots, where i may have run past the end once.
pub(crate) fn wrap(i: usize, slots: usize) -> usize
    ensures { result ≡ wrapped slots i }
{
    if i < slots { i } else { i - slots }
}

// What was reported, with one report more.
fn joined(f: Option<Scalar>, t: Scalar) -> Scalar
    ensures { result ≡ joined (found_of f) t }
{
    match f {
        Some(all) => all.union(t),
        None => t,
    }
}

// How many pieces a visit hands on.
fn children(o: Outcome) -> usize
    ensures { result ≡ children o }
{
    match o {
        Outcome::Dropped => 0,
        Outcome::Reported(_) => 0,
        Outcome::Restricted(_) => 1,
        Outcome::Halved => 2,
        Outcome::BadWeight => 0,
    }
}

// How many cuts a visit adds: those of a piece that it cut down and hands on, else none.
fn cuts_of(o: Outcome) -> usize
    ensures { result ≡ cuts_of o }
{
    match o {
        Outcome::Dropped => 0,
        Outcome::Reported(_) => 0,
        Outcome::Restricted(n) => n,
        Outcome::Halved => 0,
        Outcome::BadWeight => 0, // its piece is not queued
    }
}

// The counts, with the visit of a piece of depth d that came out as o.
fn counted(v: Counts, d: usize, o: Outcome) -> Counts
    requires { (v.visited ≤ 0x1000_0000) × (v.cuts ≤ 0x1000_0000) × (cuts_of o ≤ 2) }
    ensures { result ≡ with_cuts (cuts_of o) (with_visit d v) }
{
    let visited = v.visited + 1;
    let cuts = v.cuts + cuts_of(o);
    let depth = v.depth.max(d);
    Counts {
        visited,
        cuts,
        depth,
    }
}

// What was reported, with what a visit reports.
fn with_report(f: Option<Scalar>, o: Outcome) -> Option<Scalar>
    ensures { found_of result ≡ with_report (found_of f) o }
{
    match o {
        Outcome::Dropped => f,
        Outcome::Reported(t) => Some(joined(f, t)),
        Outcome::Restricted(_) => f,
        Outcome::Halved => f,
        Outcome::BadWeight => f,
    }
}

// The visit found a weight that is not above zero.
pub(crate) fn has_bad_weight(o: Outcome) -> bool
    ensures { result ≡ has_bad_weight o }
{
    matches!(o, Outcome::BadWeight)
}

// Where the search stands after the visit of a piece of depth d that came out as o, in a ring of so many slots.
pub(crate) fn after_visit(q: Search, d: usize, o: Outcome, slots: usize) -> Search
    requires head_lt_slots { (q.head < slots) × (1 ≤ q.pending) × (q.pending < slots) × (slots ≤ 0x1000_0000) }
    requires visited_bound { (q.counts.visited ≤ 0x1000_0000) × (q.counts.cuts ≤ 0x1000_0000) × (cuts_of o ≤ 2) }
    ensures { Next slots q d o result }
{
    Search {
        head: wrap(q.head + 1, slots),
        pending: q.pending - 1 + children(o),
        counts: counted(q.counts, d, o),
        found: with_report(q.found, o),
    }
}
