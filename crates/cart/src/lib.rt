// The search on the training cart, whose arm is short (request E4): within three limits, on a work area of its own.
// It goes by the contract of the search alone.
#![tactic(auto)]

ghost use Rattle.std.specs.Prelude.{◌≡◌};
ghost use Rattle.model.specs.Call.{lent};
ghost use Rattle.cart.specs.Cart.{is_beyond, own_words, CartAnswers};

use geometry::contains::curve_could_contain;
use model::contains::Found;
use model::refusal::Refusal;
use model::subdivide::Counts;

// Degree is above 3, count above 8 or nodes above 48.
#[tactic(auto, unfolding(crate::specs::Cart::is_beyond))]
fn is_beyond(degree: usize, count: usize, nodes: usize) -> bool
    ensures { result ≡ is_beyond degree count nodes }
{
    3 < degree || 8 < count || 48 < nodes
}

// `curve_could_contain` of crates/geometry on the cart, which has a work area of its own.
//
// Exactly a call with a degree above 3, a count above 8 or nodes above 48 is refused by 14, before 16 and every other
// number, with nothing counted. Any other has the answer of `curve_could_contain` with any work area that is long
// enough, and with any other too, unless that is 10: so never 10.
//
// Nothing is asked of the caller, and nothing is lent to be written. Each promise is a field of `CartAnswers`
// (crates/cart/specs/Cart.antt), under a sentence: result, fourteen, exactly, frame, or_ten, room, paper, encloses,
// within, zeros, order, debug.
pub fn cart_could_contain(
    rev: usize,
    dim: usize,
    degree: usize,
    count: usize,
    knots: &[f64],
    points: &[f64],
    point_box: &[f64],
    resolution: f64,
    nodes: usize,
) -> Found
    ensures { let k = knots.now in let p = points.now in let b = point_box.now in
        let c = lent rev dim degree count k p b resolution nodes own_words in
        CartAnswers c result }
{
    if is_beyond(degree, count, nodes) {
        return Found::Refused(Refusal::Cart, Counts::NONE);
    }
    let mut work = [0.0; 8192];
    curve_could_contain(
        rev, dim, degree, count, knots, points, point_box, resolution, nodes, &mut work,
    )
}
