// The exports of the C library: puhlwazo.h declares them, and says what the pointers must be. Each calls the function of its
// name in crates/puhlwazo, where what it gives is said, and states its clauses again.
#![tactic(auto)]

ghost use Rattle.std.specs.Prelude.{◌≡◌, length};
ghost use Rattle.model.specs.Call.{lent, stated_words, answer_to};
ghost use Rattle.model.specs.Promise.{Answers};
ghost use Rattle.cart.specs.Cart.{own_words, cart_answer, CartAnswers};
ghost use Rattle.puhlwazo.specs.Answers.{HandsOut};

// The search.
#[unsafe(no_mangle)]
pub extern "C" fn puhlwazo_curve_could_contain(
    rev: usize,
    dim: usize,
    degree: usize,
    count: usize,
    knots: &[f64],
    points: &[f64],
    point_box: &[f64],
    resolution: f64,
    nodes: usize,
    work: &mut [f64],
    counts: &mut [u64; 5],
    bounds: &mut [f64; 2],
) -> u64
    ensures { let k = knots.now in let p = points.now in let b = point_box.now in
        let c = lent rev dim degree count k p b resolution nodes (length work.old) in
        let Keeps = Answers c work.old work.new in
        HandsOut (answer_to c) Keeps result counts.new bounds.new }
{
    puhlwazo::curve::puhlwazo_curve_could_contain(
        rev, dim, degree, count, knots, points, point_box, resolution, nodes, work, counts, bounds,
    )
}

// How many words of work area a call with these sizes needs, and 0 exactly for sizes that 1, 2, 3 or 9 refuse.
#[unsafe(no_mangle)]
pub extern "C" fn puhlwazo_work_words(
    dim: usize,
    degree: usize,
    count: usize,
    nodes: usize,
) -> usize
    ensures { result ≡ stated_words dim degree count nodes }
{
    puhlwazo::curve::puhlwazo_work_words(dim, degree, count, nodes)
}

// The search on the training cart.
#[unsafe(no_mangle)]
pub extern "C" fn puhlwazo_cart_could_contain(
    rev: usize,
    dim: usize,
    degree: usize,
    count: usize,
    knots: &[f64],
    points: &[f64],
    point_box: &[f64],
    resolution: f64,
    nodes: usize,
    counts: &mut [u64; 5],
    bounds: &mut [f64; 2],
) -> u64
    ensures { let k = knots.now in let p = points.now in let b = point_box.now in
        let c = lent rev dim degree count k p b resolution nodes own_words in
        HandsOut (cart_answer c) (CartAnswers c) result counts.new bounds.new }
{
    puhlwazo::short_arm::puhlwazo_cart_could_contain(
        rev, dim, degree, count, knots, points, point_box, resolution, nodes, counts, bounds,
    )
}
