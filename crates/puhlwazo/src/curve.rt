// The search, and how many numbers to lend to it.
ghost use Rattle.std.specs.Prelude.{◌≡◌, length};
ghost use Rattle.model.specs.Call.{lent, stated_words, answer_to};
ghost use Rattle.model.specs.Promise.{Answers};
ghost use Rattle.puhlwazo.specs.Answers.{HandsOut};

use crate::answers::{bounds_of, counts_of, number_of};
use geometry::call::stated_words;
use geometry::contains::curve_could_contain;

// `curve_could_contain` of crates/geometry, with its answer in lent memory: the result is the number of the refusal or 0,
// `counts` the kind of the answer, visited, pending, cuts and depth, `bounds` lo and hi.
// of_number, of_counts and of_bounds say what is given out, to the last word. answers: read back as an answer, it keeps
// the promises of that function, each a field of `Answers`.
// Nothing is asked of the caller but what the types say.
pub fn puhlwazo_curve_could_contain(
    rev: usize,
    dim: usize,
    degree: usize,
    count: usize,
    knots: &[f64],
    points: &[f64],
    point_box: &[f64],
    resolution: f64,
    nodes: usize,
    work: &mut [f64],
    counts: &mut [u64; 5],
    bounds: &mut [f64; 2],
) -> u64
    ensures { let k = knots.now in let p = points.now in let b = point_box.now in
        let c = lent rev dim degree count k p b resolution nodes (length work.old) in
        let Keeps = Answers c work.old work.new in
        HandsOut (answer_to c) Keeps result counts.new bounds.new }
{
    let f = curve_could_contain(
        rev, dim, degree, count, knots, points, point_box, resolution, nodes, work,
    );
    *counts = counts_of(f);
    *bounds = bounds_of(f);
    number_of(f)
}

// How many words of work area a call with these sizes needs, and 0 exactly for sizes that 1, 2, 3 or 9 refuse.
pub fn puhlwazo_work_words(dim: usize, degree: usize, count: usize, nodes: usize) -> usize
    ensures { result ≡ stated_words dim degree count nodes }
{
    stated_words(dim, degree, count, nodes)
}
