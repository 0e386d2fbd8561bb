// The search on the training cart (request E4).
ghost use Rattle.model.specs.Call.{lent};
ghost use Rattle.cart.specs.Cart.{own_words, cart_answer, CartAnswers};
ghost use Rattle.puhlwazo.specs.Answers.{HandsOut};

use crate::answers::{bounds_of, counts_of, number_of};
use cart::cart_could_contain;

// `cart_could_contain` of crates/cart, with its answer in lent memory as `puhlwazo_curve_could_contain` has it; no work
// area is lent. answers: read back, it keeps the promises of that function, each a field of `CartAnswers`.
// Nothing is asked of the caller but what the types say.
pub fn puhlwazo_cart_could_contain(
    rev: usize,
    dim: usize,
    degree: usize,
    count: usize,
    knots: &[f64],
    points: &[f64],
    point_box: &[f64],
    resolution: f64,
    nodes: usize,
    counts: &mut [u64; 5],
    bounds: &mut [f64; 2],
) -> u64
    ensures { let k = knots.now in let p = points.now in let b = point_box.now in
        let c = lent rev dim degree count k p b resolution nodes own_words in
        HandsOut (cart_answer c) (CartAnswers c) result counts.new bounds.new }
{
    let f = cart_could_contain(
        rev, dim, degree, count, knots, points, point_box, resolution, nodes,
    );
    *counts = counts_of(f);
    *bounds = bounds_of(f);
    number_of(f)
}
