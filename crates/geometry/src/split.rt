// nurb_curve/split.rs: a piece cut in two, and a piece cut down to a hat, in the slots of the work area.
ghost use Rattle.std.specs.Prelude.{◌≡◌, ◌≤◌};
ghost use Rattle.math.specs.Revision.{arithmetic};
ghost use Rattle.model.specs.NurbCurve.{start, end, mid_parameter};
ghost use Rattle.geometry.specs.Slots.{piece_at, Inside, Held, Apart, Whole, Fit, within, SplitAt, FromAt, UpToAt, RestrictAt};

use crate::knot_insertion::insert_to_full_multiplicity;
use crate::nurb_curve::{in_domain, mid_parameter};
use crate::slots::{Shape, copy_right, count_at, keep_left, knots_from};
use math::revision::Revision;

// The parameter t lies strictly inside the domain of the piece in the slot at base.
pub(crate) fn is_inside(work: &[f64], base: usize, s: Shape, t: f64) -> bool
    requires { Held s work.now base }
    ensures { result ≡ within s.degree (piece_at s work.now base) t }
{
    let n = count_at(work, base);
    let first = knots_from(base);
    in_domain(work[first + s.degree], work[first + n], t)
}

// The piece in the slot at src, where it stays, is cut at t in the slot at left; what is right of t goes to the slot at right. There is no cut unless t lies strictly
// inside the domain.
pub(crate) fn split<R: Revision>(
    work: &mut [f64],
    src: usize,
    left: usize,
    right: usize,
    s: Shape,
    t: f64,
) -> bool
    requires held { Held s work.old src × Whole s (piece_at s work.old src) × Inside s work.old left
        × Inside s work.old right }
    requires apart { Apart s src left × Apart s src right × Apart s left right }
    ensures { let old = work.old in
        let c = piece_at s old src in
        SplitAt (arithmetic R.second) s old work.new left right t c result }
{
    if !is_inside(work, src, s, t) {
        return false;
    }
    copy_right(work, src, left, s, 0);
    let at = insert_to_full_multiplicity::<R>(work, left, s, t);
    copy_right(work, left, right, s, at);
    keep_left(work, left, s, at);
    true
}

// The piece in the slot at src is cut at the middle of its domain.
pub(crate) fn split_mid<R: Revision>(
    work: &mut [f64],
    src: usize,
    left: usize,
    right: usize,
    s: Shape,
) -> bool
    requires held { Held s work.old src × Whole s (piece_at s work.old src) × Inside s work.old left
        × Inside s work.old right }
    requires apart { Apart s src left × Apart s src right × Apart s left right }
    ensures { let old = work.old in
        let c = piece_at s old src in
        SplitAt (arithmetic R.second) s old work.new left right
        (mid_parameter (arithmetic R.second) (start s.degree c) (end c)) c result }
{
    let n = count_at(work, src);
    let first = knots_from(src);
    let t = mid_parameter::<R>(work[first + s.degree], work[first + n]);
    split::<R>(work, src, left, right, s, t)
}

// The piece in the slot at base becomes what is right of t, where t lies strictly inside its domain. The result is the number of cuts.
fn cut_from<R: Revision>(work: &mut [f64], base: usize, s: Shape, t: f64) -> usize
    requires { Held s work.old base × Whole s (piece_at s work.old base) }
    ensures { FromAt (arithmetic R.second) s work.old work.new base t (piece_at s work.old base) result }
{
    if !is_inside(work, base, s, t) {
        return 0;
    }
    let at = insert_to_full_multiplicity::<R>(work, base, s, t);
    copy_right(work, base, base, s, at);
    1
}

// The piece in the slot at base becomes what is left of t, where t lies strictly inside its domain. The result is the number of cuts.
fn cut_up_to<R: Revision>(work: &mut [f64], base: usize, s: Shape, t: f64) -> usize
    requires { Held s work.old base × Whole s (piece_at s work.old base) }
    ensures { UpToAt (arithmetic R.second) s work.old work.new base t (piece_at s work.old base) result }
{
    if !is_inside(work, base, s, t) {
        return 0;
    }
    let at = insert_to_full_multiplicity::<R>(work, base, s, t);
    keep_left(work, base, s, at);
    1
}

// The piece in the slot at src, where it stays, is cut down to lo and hi in the slot at to: the second cut runs in the slot of the first. The result is the number of
// cuts, 0, 1 or 2: one if lo lies strictly inside the domain, and one more if hi lies strictly inside what is then left.
pub(crate) fn restrict<R: Revision>(
    work: &mut [f64],
    src: usize,
    to: usize,
    s: Shape,
    lo: f64,
    hi: f64,
) -> usize
    requires { Held s work.old src × Fit (arithmetic R.second) s (piece_at s work.old src) × Inside s work.old to × Apart s src to
        × (1 ≤ s.degree) }
    ensures { let old = work.old in
        let c = piece_at s old src in
        RestrictAt (arithmetic R.second) s old work.new to lo hi c result }
{
    copy_right(work, src, to, s, 0);
    let from = cut_from::<R>(work, to, s, lo);
    let up_to = cut_up_to::<R>(work, to, s, hi);
    from + up_to
}
