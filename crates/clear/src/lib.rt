// A caller of the search, which goes by its contract alone: is the path clear of the box?
#![tactic(auto)]

ghost use Rattle.std.specs.Prelude.{length};
ghost use Rattle.model.specs.Call.{lent};
ghost use Rattle.clear.specs.Clear.{Clears};

use geometry::contains::curve_could_contain;
use model::contains::Found;

// The search has shown, in the revision that is named, that the curve meets the box at no parameter t of its domain, a
// rational number, both ends included. A search that was refused or spent has shown nothing.
pub fn is_clear(
    rev: usize,
    dim: usize,
    degree: usize,
    count: usize,
    knots: &[f64],
    points: &[f64],
    point_box: &[f64],
    resolution: f64,
    nodes: usize,
    work: &mut [f64],
) -> bool
    ensures { let k = knots.now in let p = points.now in let b = point_box.now in
        let c = lent rev dim degree count k p b resolution nodes (length work.old) in
        Clears c work.old work.new result }
{
    let found = curve_could_contain(
        rev, dim, degree, count, knots, points, point_box, resolution, nodes, work,
    );
    matches!(found, Found::Nothing(..))
}
