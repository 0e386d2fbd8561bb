// `fat_line_zeros` over two lent slices of intervals. Each point is read once and passed on by value; the chord and the zeros are those of fat_line.rt.
ghost use Rattle.std.specs.Prelude.{◌≡◌, true, length};
ghost use Rattle.math.specs.Revision.{arithmetic};
ghost use Rattle.model.specs.FatLine.{fat_line_zeros};
ghost use Rattle.geometry.specs.Zeros.{paired, answerable, ZerosFound, off_by, begun, taken, zeros_of};

use crate::call::revision_fits;
use crate::fat_line::{chord, level_zeros, sloped_zeros};
use math::revision::{First, Revision, Second};
use math::scalars::Scalar;

// The chord of a control polygon, and its band: the union of what the points taken in so far lie off it, or of their values
// where there is no chord.
#[derive(Clone, Copy)]
struct Line {
    x0: Scalar,
    y0: Scalar,
    last: Scalar,
    slope: Option<Scalar>,
    band: Scalar,
}

// There is a point, and as many abscissae as values.
fn paired(m: usize, n: usize) -> bool
    ensures { result ≡ paired m n }
{
    m == n && 0 < n
}

// The revision is 1 or 2, and the slices are a polygon.
fn answerable(rev: usize, m: usize, n: usize) -> bool
    ensures { result ≡ answerable rev m n }
{
    revision_fits(rev) && paired(m, n)
}

// How far a point lies off the chord through (x0, y0), or its value where there is no chord.
fn off<R: Revision>(slope: Option<Scalar>, x0: Scalar, y0: Scalar, x: Scalar, y: Scalar) -> Scalar
    ensures { result ≡ off_by (arithmetic R.second) slope x0 y0 x y }
{
    let Some(s) = slope else {
        return y;
    };
    R::sub(y, chord::<R>(s, y0, R::sub(x, x0)))
}

// The line from (x0, y0) to (x, y), with the first point taken in.
fn begin<R: Revision>(x0: Scalar, y0: Scalar, x: Scalar, y: Scalar) -> Line
    ensures { result ≡ begun (arithmetic R.second) x0 y0 x y }
{
    let slope = R::div(R::sub(y, y0), R::sub(x, x0));
    let band = off::<R>(slope, x0, y0, x0, y0);
    Line {
        x0,
        y0,
        last: y,
        slope,
        band,
    }
}

// The line with one more point taken in.
fn take<R: Revision>(l: Line, x: Scalar, y: Scalar) -> Line
    ensures { result ≡ taken (arithmetic R.second) l x y }
{
    let band = l.band.union(off::<R>(l.slope, l.x0, l.y0, x, y));
    Line { band, ..l }
}

// The zeros, once each point is taken in.
fn end<R: Revision>(l: Line) -> Option<Scalar>
    ensures { result ≡ zeros_of (arithmetic R.second) l.x0 l.y0 l.last l.band l.slope }
{
    match l.slope {
        Some(s) => sloped_zeros::<R>(s, l.x0, l.y0, l.last, l.band),
        None => level_zeros(l.band),
    }
}

// The zeros of a polygon, of any number of points. (The search has its own: for all axes it takes once, in an array of 32,
// how far each abscissa lies from the first.)
fn polygon_zeros<R: Revision>(xi: &[Scalar], d: &[Scalar]) -> Option<Scalar>
    requires { paired (length xi.now) (length d.now) ≡ true }
    ensures { result ≡ fat_line_zeros (arithmetic R.second) xi.now d.now }
{
    let n = d.len();
    let mut l = begin::<R>(xi[0], d[0], xi[n - 1], d[n - 1]);
    for i in 1..n {
        l = take::<R>(l, xi[i], d[i]);
    }
    end::<R>(l)
}

// Where the spline could be zero whose graph has the control polygon (xi i, d i), in a revision: anywhere, if the
// slices are no polygon, or the revision is neither 1 nor 2.
pub fn fat_line_zeros(rev: usize, xi: &[Scalar], d: &[Scalar]) -> Option<Scalar>
    ensures { ZerosFound rev xi.now d.now result }
{
    if !answerable(rev, xi.len(), d.len()) {
        return Some(Scalar::entire());
    }
    if rev == 2 {
        return polygon_zeros::<Second>(xi, d);
    }
    polygon_zeros::<First>(xi, d)
}
