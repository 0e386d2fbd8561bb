// What the seven lines of an answer are printed for: an answer of the search, or a refusal by any number.
ghost use Rattle.std.specs.Prelude.{◌≡◌};
ghost use Rattle.model.specs.Paper.{Paper, paper};
ghost use Rattle.text.specs.Printable.{numbered_paper};
ghost use Rattle.text.specs.Answer.{paper_in};

use model::contains::Found;
use model::subdivide::Counts;

// A refusal by a number, one too that no `Refusal` has, with what was counted before it.
#[derive(Clone, Copy)]
pub struct Numbered {
    pub number: u64,
    pub counts: Counts,
}

pub trait Answer {
    // What it is on paper.
    ghost on_paper: { Self → Paper };

    // The answer of the search that it is, or the refusal by a number.
    fn found(self) -> Result<Found, Numbered>
        ensures { on_paper self ≡ paper_in result };
}

impl Answer for Found {
    ghost on_paper = { paper };

    fn found(self) -> Result<Found, Numbered> {
        Ok(self)
    }
}

impl Answer for Numbered {
    ghost on_paper = { λ a. numbered_paper a.number a.counts };

    fn found(self) -> Result<Found, Numbered> {
        Err(self)
    }
}
