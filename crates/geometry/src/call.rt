// What a call may lend: the check 16 of request E8 and 1 to 10 of the scope, each equal to its definition. 16 looks at
// the revision, 1 to 3 at the sizes, 1 to 8 at a curve, 9 and 10 at the nodes and the work area.
ghost use Rattle.std.specs.Prelude.{◌≡◌, suc, ◌+◌, ◌*◌, ◌≤◌, ◌<◌, length, leb, eqb, true, ◌&&◌, ◌||◌};
ghost use Rattle.std.specs.Float.Ieee.{eq};
ghost use Rattle.lists.specs.Lists.{all};
ghost use Rattle.math.specs.Scalars.{zero_f};
ghost use Rattle.model.specs.Layout.{points_of, scalars_of, slot_words};
ghost use Rattle.geometry.specs.Polygon.{vectors};
ghost use Rattle.model.specs.Call.{curve_of, usable, ordered, rising, multiplicity_ok};
ghost use Rattle.model.specs.Call.{lengths_fit, numbers_usable, bounds_ordered, curve_refusal, question_refusal, refusal};
ghost use Rattle.model.specs.Call.{knots_valid, nodes_fit, revision_fits, revision_refusal, sizes_refusal, stated_words};
ghost use Rattle.model.specs.Numbers.{code_of};
ghost use Rattle.geometry.specs.Call.{curve_in, call_in, QuestionRefused};
ghost use Rattle.geometry.specs.Multiplicity.{repeats_at, multiplicity_ok_at};

use crate::nurb_curve::{Polygon, in_domain};
use model::refusal::Refusal;

// A number, and at most 2^100 in size.
fn usable(x: f64) -> bool
    ensures { result ≡ usable x }
{
    let most = f64::from_bits(0x4630_0000_0000_0000);
    -most <= x && x <= most
}

// Every number of a list is usable.
fn all_usable(l: &[f64]) -> bool
    ensures { result ≡ all usable l.now }
{
    l.iter().all(|x| usable(*x))
}

// No interval of the first n has its lo above its hi.
fn all_ordered(l: &[f64], n: usize) -> bool
    requires { 2 * n ≤ length l.now }
    ensures { result ≡ all ordered (scalars_of n l.now) }
{
    (0..n).all(|i| l[2 * i] <= l[2 * i + 1])
}

// No knot is below the one before.
fn rising(knots: &[f64]) -> bool
    ensures { result ≡ rising knots.now }
{
    knots.windows(2).all(|w| w[0] <= w[1])
}

// The knot u is an end of the domain from a to b.
fn is_end(a: f64, b: f64, u: f64) -> bool
    ensures { result ≡ (eq u a || eq u b) }
{
    u == a || u == b
}

// Knot number i is followed by an equal one, k places on.
fn repeats_at(knots: &[f64], i: usize, k: usize) -> bool
    requires { (i < length knots.now) × (k ≤ 8) }
    ensures { result ≡ repeats_at knots.now i k }
{
    i + k < knots.len() && knots[i + k] == knots[i]
}

// On a domain from a to b, number i of rising knots does not begin a run that is too long.
fn multiplicity_ok(degree: usize, a: f64, b: f64, knots: &[f64], i: usize) -> bool
    requires { (degree ≤ 7) × (i < length knots.now) }
    ensures { result ≡ multiplicity_ok_at degree a b knots.now i }
{
    let u = knots[i];
    if is_end(a, b, u) {
        return !repeats_at(knots, i, degree + 1);
    }
    if in_domain(a, b, u) {
        return !repeats_at(knots, i, degree.max(1));
    }
    true
}

// Of rising knots, none occurs too often.
fn multiplicities_ok(degree: usize, a: f64, b: f64, knots: &[f64]) -> bool
    requires { (degree ≤ 7) × (rising knots.now ≡ true) }
    ensures { let l = knots.now in
        result ≡ all (λ u. multiplicity_ok degree a b l u) l }
{
    (0..knots.len()).all(|i| multiplicity_ok(degree, a, b, knots, i))
}

// No knot falls, the domain's start is below its end, and no value occurs too often.
fn knots_valid(degree: usize, count: usize, knots: &[f64]) -> bool
    requires { (degree ≤ 7) × ((degree < length knots.now) × (count < length knots.now)) }
    ensures { result ≡ knots_valid degree count knots.now }
{
    let a = knots[degree];
    let b = knots[count];
    rising(knots) && a < b && multiplicities_ok(degree, a, b, knots)
}

// 16: the revision is 1 or 2.
pub(crate) fn revision_fits(rev: usize) -> bool
    ensures { result ≡ revision_fits rev }
{
    rev == 1 || rev == 2
}

// 16, unless the revision is 1 or 2.
pub fn revision_refusal(rev: usize) -> Result<(), Refusal>
    ensures { code_of result ≡ revision_refusal rev }
{
    if !revision_fits(rev) {
        return Err(Refusal::Revision);
    }
    Ok(())
}

// 1: the dimension is 2 or 3.
fn dim_fits(dim: usize) -> bool
    ensures { result ≡ eqb dim 2 || eqb dim 3 }
{
    dim == 2 || dim == 3
}

// 3: there are from degree + 1 to 32 points.
fn count_fits(degree: usize, count: usize) -> bool
    requires { degree ≤ 7 }
    ensures { result ≡ leb (degree + 1) count && leb count 32 }
{
    degree + 1 <= count && count <= 32
}

// By which of 1 to 3 the sizes of a curve are refused.
pub fn sizes_refusal(dim: usize, degree: usize, count: usize) -> Result<(), Refusal>
    ensures { code_of result ≡ sizes_refusal dim degree count }
{
    if !dim_fits(dim) {
        return Err(Refusal::Dim);
    }
    if degree > 7 {
        return Err(Refusal::Degree);
    }
    if !count_fits(degree, count) {
        return Err(Refusal::Count);
    }
    Ok(())
}

// 9: there are at most 4,096 nodes.
fn nodes_fit(nodes: usize) -> bool
    ensures { result ≡ nodes_fit nodes }
{
    nodes <= 4096
}

// The words of a slot of the work area, the last of them for the depth.
pub(crate) fn slot_words(dim: usize, degree: usize, count: usize) -> usize
    requires { (dim ≤ 3) × ((degree ≤ 7) × (count ≤ 32)) }
    ensures { result ≡ slot_words dim degree count }
{
    2 * (dim + 1) * (count + degree + 1) + 2 * (count + 2 * degree + 2) + 1
}

// The stated words of a work area, and 0 for sizes that 1, 2, 3 or 9 refuse.
pub fn stated_words(dim: usize, degree: usize, count: usize, nodes: usize) -> usize
    ensures { result ≡ stated_words dim degree count nodes }
{
    if sizes_refusal(dim, degree, count).is_err() {
        return 0;
    }
    if !nodes_fit(nodes) {
        return 0;
    }
    (nodes + 3) * slot_words(dim, degree, count)
}

// What a call lends beside its work area, and what it asks: a curve, a box and a resolution, at most so many nodes, and
// the revision.
#[derive(Clone, Copy)]
pub(crate) struct Lent<'a> {
    pub(crate) rev: usize,
    pub(crate) dim: usize,
    pub(crate) degree: usize,
    pub(crate) count: usize,
    pub(crate) knots: &'a [f64],
    pub(crate) points: &'a [f64],
    pub(crate) point_box: &'a [f64],
    pub(crate) resolution: f64,
    pub(crate) nodes: usize,
}

impl<'a> Lent<'a> {
    // 4: each slice has its length.
    fn lengths_fit(self) -> bool
        requires { (self.dim ≤ 3) × (self.degree ≤ 7) × (self.count ≤ 32) }
        ensures { let q = self.entry in
            result ≡ lengths_fit q.dim q.point_box.now (curve_in q) }
    {
        self.knots.len() == self.count + self.degree + 1
            && self.points.len() == 2 * (self.dim + 1) * self.count
            && self.point_box.len() == 2 * self.dim
    }

    // 5: every number is usable, and the resolution is not below 0.
    fn numbers_usable(self) -> bool
        ensures { let q = self.entry in
            result ≡ numbers_usable q.point_box.now q.resolution (curve_in q) }
    {
        all_usable(self.knots)
            && all_usable(self.points)
            && all_usable(self.point_box)
            && usable(self.resolution)
            && 0.0 <= self.resolution
    }

    // The control points, where there are as many numbers as the sizes give.
    pub(crate) fn polygon(self) -> Polygon<'a>
        requires { (self.dim ≤ 3) × (self.count ≤ 32) × (2 * (suc self.dim * self.count) ≤ length self.points.now) }
        ensures { let q = self.entry in
            (result.dim ≡ q.dim) × (result.count ≡ q.count) × (vectors result ≡ points_of (suc q.dim) q.count q.points.now) }
    {
        Polygon {
            words: self.points,
            dim: self.dim,
            count: self.count,
        }
    }

    // 6: no lo is above its hi.
    fn bounds_ordered(self) -> bool
        requires sizes { (self.dim ≤ 3) × (self.count ≤ 32) }
        requires points_in_bounds { 2 * (suc self.dim * self.count) ≤ length self.points.now }
        requires sides_in_bounds { 2 * self.dim ≤ length self.point_box.now }
        ensures { let q = self.entry in
            result ≡ bounds_ordered q.dim q.point_box.now (curve_in q) }
    {
        all_ordered(self.points, (self.dim + 1) * self.count)
            && all_ordered(self.point_box, self.dim)
    }

    // By which of 1 to 8 the curve is refused, with the box and the resolution.
    fn curve_refusal(self) -> Result<(), Refusal>
        ensures { let q = self.entry in
            code_of result ≡ curve_refusal q.dim q.point_box.now q.resolution (curve_in q) }
    {
        sizes_refusal(self.dim, self.degree, self.count)?;
        if !self.lengths_fit() {
            return Err(Refusal::Length);
        }
        if !self.numbers_usable() {
            return Err(Refusal::Value);
        }
        if !self.bounds_ordered() {
            return Err(Refusal::Order);
        }
        if !self.polygon().weights_positive() {
            return Err(Refusal::Weight);
        }
        if !knots_valid(self.degree, self.count, self.knots) {
            return Err(Refusal::Knots);
        }
        Ok(())
    }

    // By which of 16, then 1 to 9, the question is refused, whatever is lent to search it.
    fn question_refusal(self) -> Result<(), Refusal>
        ensures { let q = self.entry in
            code_of result ≡ question_refusal q.rev (curve_in q) q.point_box.now q.resolution q.nodes }
    {
        revision_refusal(self.rev)?;
        self.curve_refusal()?;
        if !nodes_fit(self.nodes) {
            return Err(Refusal::Nodes);
        }
        Ok(())
    }

    // By what the call is refused, with a work area of so many words: as its question is, then by 10.
    pub(crate) fn refusal(self, work_len: usize) -> Result<(), Refusal>
        ensures { code_of result ≡ refusal (call_in self.entry work_len) }
    {
        self.question_refusal()?;
        if stated_words(self.dim, self.degree, self.count, self.nodes) > work_len {
            return Err(Refusal::Work);
        }
        Ok(())
    }
}

// By which of 16, then 1 to 9, a question is refused, whatever is lent to search it.
pub fn question_refusal(
    rev: usize,
    dim: usize,
    degree: usize,
    count: usize,
    knots: &[f64],
    points: &[f64],
    point_box: &[f64],
    resolution: f64,
    nodes: usize,
) -> Result<(), Refusal>
    ensures { let v = curve_of dim degree count knots.now points.now in
        QuestionRefused rev v point_box.now resolution nodes (code_of result) }
{
    let lent = Lent {
        rev,
        dim,
        degree,
        count,
        knots,
        points,
        point_box,
        resolution,
        nodes,
    };
    lent.question_refusal()
}
