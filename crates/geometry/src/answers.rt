// What stands in an answer, for whoever hands it out: the number of a refusal, and what the search counted. (The types are
// those of crates/model, which holds no function.)
ghost use Rattle.std.specs.Prelude.{◌≡◌};
ghost use Rattle.model.specs.Numbers.{number_of};
ghost use Rattle.model.specs.Paper.{paper, counts_of};

use model::contains::Found;
use model::refusal::Refusal;
use model::subdivide::Counts;

// A refusal's number in the papers.
pub fn number(refused: Refusal) -> u64
    ensures { result ≡ number_of refused }
{
    match refused {
        Refusal::Dim => 1,
        Refusal::Degree => 2,
        Refusal::Count => 3,
        Refusal::Length => 4,
        Refusal::Value => 5,
        Refusal::Order => 6,
        Refusal::Weight => 7,
        Refusal::Knots => 8,
        Refusal::Nodes => 9,
        Refusal::Work => 10,
        Refusal::Piece => 11,
        Refusal::Text => 12,
        Refusal::Cart => 14,
        Refusal::Room => 15,
        Refusal::Revision => 16,
        Refusal::Sheet => 23,
    }
}

// What the search counted.
pub fn counts(found: Found) -> Counts
    ensures { result ≡ counts_of (paper found) }
{
    match found {
        Found::Nothing(counts) => counts,
        Found::Enclosed(_, _, counts) => counts,
        Found::Spent(_, counts) => counts,
        Found::Refused(_, counts) => counts,
    }
}
