// An answer of the search in numbers alone.
ghost use Rattle.std.specs.Prelude.{◌≡◌};
ghost use Rattle.puhlwazo.specs.Answers.{number_of, counts_of, bounds_of};

use geometry::answers::{counts, number};
use model::contains::Found;

// The number of the refusal, and 0 where there is none.
pub(crate) fn number_of(f: Found) -> u64
    ensures { result ≡ number_of f }
{
    match f {
        Found::Nothing(_) | Found::Enclosed(..) | Found::Spent(..) => 0,
        Found::Refused(refused, _) => number(refused),
    }
}

// The kind of the answer, visited, pending, cuts, and depth.
#[tactic(auto, unfolding(crate::specs::Answers::counts_of))]
pub(crate) fn counts_of(f: Found) -> [u64; 5]
    ensures { result ≡ counts_of f }
{
    let (kind, pending) = match f {
        Found::Nothing(_) => (0, 0),
        Found::Enclosed(..) => (1, 0),
        Found::Spent(n, _) => (2, n as u64),
        Found::Refused(..) => (3, 0),
    };
    let c = counts(f);
    [
        kind,
        c.visited as u64,
        pending,
        c.cuts as u64,
        c.depth as u64,
    ]
}

// lo and hi.
#[tactic(auto, unfolding(crate::specs::Answers::bounds_of))]
pub(crate) fn bounds_of(f: Found) -> [f64; 2]
    ensures { result ≡ bounds_of f }
{
    match f {
        Found::Enclosed(lo, hi, _) => [lo, hi],
        Found::Nothing(_) | Found::Spent(..) | Found::Refused(..) => [0.0, 0.0],
    }
}
