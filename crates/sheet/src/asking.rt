// The sheet, and its questions.
ghost use Rattle.std.specs.Prelude.{◌≡◌, [], length};
ghost use Rattle.model.specs.Call.{lent};
ghost use Rattle.text.specs.Printable.{Printable};
ghost use Rattle.sheet.specs.Sheet.{is_twelve, empty_sheet, Kept, one_more, Tallied, Asks, AsksText};

use crate::sum::{add_double, take_double};
use geometry::contains::curve_could_contain;
use model::contains::Found;
use model::refusal::Refusal;
use model::subdivide::Counts;
use text::respond::answered;

// How many questions there were, how many of them came to what, and the sum of hi minus lo over those that are enclosed: a
// whole number of units of 2^-1074, the lowest byte first.
#[derive(Clone, Copy)]
pub struct Sheet {
    pub questions: usize,
    pub none: usize,
    pub enclosed: usize,
    pub spent: usize,
    pub refused: usize,
    pub sum: [u8; 150],
}

// The sheet over no question.
pub fn blank() -> Sheet
    ensures { (result ≡ empty_sheet) × Kept result [] }
{
    Sheet {
        questions: 0,
        none: 0,
        enclosed: 0,
        spent: 0,
        refused: 0,
        sum: [0; 150],
    }
}

// An answer, and the sheet after it.
#[derive(Clone, Copy)]
pub struct Answered {
    pub sheet: Sheet,
    pub found: Found,
}

// Refused by 12.
fn is_twelve(f: Found) -> bool
    ensures { result ≡ is_twelve f }
{
    matches!(f, Found::Refused(Refusal::Text, _))
}

// ---- one question more

// One more, up to what a sheet can count.
fn one_more(n: usize) -> usize
    ensures { result ≡ one_more n }
{
    if n < 65535 { n + 1 } else { n }
}

// The sheet with one question more, which had this answer: hi minus lo is added to the sum where it is enclosed.
fn tally(s: Sheet, f: Found) -> Sheet
    requires { Printable f }
    ensures { Tallied s f result }
{
    let asked = Sheet {
        questions: one_more(s.questions),
        ..s
    };
    match f {
        Found::Nothing(_) => Sheet {
            none: one_more(s.none),
            ..asked
        },
        Found::Enclosed(lo, hi, _) => Sheet {
            enclosed: one_more(s.enclosed),
            sum: take_double(add_double(s.sum, hi), lo),
            ..asked
        },
        Found::Spent(..) => Sheet {
            spent: one_more(s.spent),
            ..asked
        },
        Found::Refused(..) => Sheet {
            refused: one_more(s.refused),
            ..asked
        },
    }
}

// `curve_could_contain` of crates/geometry, and the sheet with its answer. Question number 65,536 gets 23, before anything
// that is lent is looked at, and the sheet and the work area stay as they were.
//
// Nothing is asked of the caller. Each promise is a field of `Asks` (crates/sheet/specs/Sheet.antt), under a sentence: full,
// asked, kept.
pub fn ask(
    s: Sheet,
    rev: usize,
    dim: usize,
    degree: usize,
    count: usize,
    knots: &[f64],
    points: &[f64],
    point_box: &[f64],
    resolution: f64,
    nodes: usize,
    work: &mut [f64],
) -> Answered
    ensures { let k = knots.now in let p = points.now in let b = point_box.now in
        let c = lent rev dim degree count k p b resolution nodes (length work.old) in
        Asks c s work.old work.new result }
{
    if 65535 <= s.questions {
        return Answered {
            sheet: s,
            found: Found::Refused(Refusal::Sheet, Counts::NONE),
        };
    }
    let found = curve_could_contain(
        rev, dim, degree, count, knots, points, point_box, resolution, nodes, work,
    );
    let sheet = tally(s, found);
    Answered { sheet, found }
}

// The question of a text, answered as gripcheck answers it, and the sheet with its answer. A text that is refused by 12 is no
// question, and the sheet stays as it was; one that is refused by 16, 1, 2 or 3 when it is read is a question that was
// refused. Question number 65,536 gets 23, before the text is looked at.
//
// Each promise is a field of `AsksText` (crates/sheet/specs/Sheet.antt), under a sentence: full, answers, twelve, kept.
pub fn ask_text(s: Sheet, text: &[u8]) -> Answered
    ensures { AsksText text.now s result }
{
    if 65535 <= s.questions {
        return Answered {
            sheet: s,
            found: Found::Refused(Refusal::Sheet, Counts::NONE),
        };
    }
    let found = answered(text);
    if is_twelve(found) {
        return Answered { sheet: s, found };
    }
    let sheet = tally(s, found);
    Answered { sheet, found }
}
