// vector/mod.rs: a point between two points, in memory, where lo and hi of each coordinate stand side by side.
ghost use Rattle.std.specs.Prelude.{◌≡◌, ◌⊎◌, [], ◌∷◌, ◌+◌, ◌*◌, ◌≤◌, ◌<◌, length};
ghost use Rattle.lists.specs.Lists.{put};
ghost use Rattle.math.specs.Revision.{arithmetic};
ghost use Rattle.model.specs.Vector.{interpolate_v};
ghost use Rattle.model.specs.Layout.{flat};
ghost use Rattle.geometry.specs.Slots.{scalar_from, vector_at};

use math::revision::Revision;
use math::scalars::Scalar;

// The interval whose lo stands at index i.
pub(crate) fn scalar_from(words: &[f64], i: usize) -> Scalar
    requires { i + 1 < length words.now }
    ensures { result ≡ scalar_from words.now i }
{
    Scalar {
        lo: words[i],
        hi: words[i + 1],
    }
}

// The interval whose lo stands at index i becomes x.
pub(crate) fn set_scalar(words: &mut [f64], i: usize, x: Scalar)
    requires { i + 1 < length words.old }
    ensures { words.new ≡ put words.old i (x.lo ∷ x.hi ∷ []) }
{
    words[i] = x.lo;
    words[i + 1] = x.hi;
}

// The point of d intervals at c becomes the one a fraction alpha of the way from the point at a to the point at b, each of
// which lies in front of it or begins at or behind its first word.
pub(crate) fn interpolate<R: Revision>(
    words: &mut [f64],
    a: usize,
    b: usize,
    c: usize,
    d: usize,
    alpha: Scalar,
)
    requires d_in_bounds { (a + 2 * d ≤ length words.old) × (b + 2 * d ≤ length words.old) × (c + 2 * d ≤ length words.old) }
    requires fact { ((a + 2 * d ≤ c) ⊎ (c ≤ a)) × ((b + 2 * d ≤ c) ⊎ (c ≤ b)) }
    ensures { let old = words.old in
        words.new ≡ put old c (flat (interpolate_v (arithmetic R.second) (vector_at d old a) (vector_at d old b) alpha)) }
{
    let f = R::fraction(alpha);
    for k in 0..d {
        let x = scalar_from(words, a + 2 * k);
        let y = scalar_from(words, b + 2 * k);
        set_scalar(words, c + 2 * k, R::between(x, y, f));
    }
}
