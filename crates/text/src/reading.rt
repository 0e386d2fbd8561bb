// The reading of a whole text: its question, or by what it is refused.
ghost use Rattle.std.specs.Prelude.{◌≡◌, ◌≤◌, length};
ghost use Rattle.text.specs.Question.{sizes, numbers, complete_by, read_by, reading};
ghost use Rattle.text.specs.Cursor.{Small, TextRead};

use crate::cursor::{Asked, Sizes};
use crate::question::{numbers, revision, sizes};
use geometry::call::{revision_refusal, sizes_refusal};
use model::refusal::Refusal;

// So many zeros: room for doubles. (A call keeps them out of the proofs.)
pub(crate) fn zeros<const N: usize>() -> [f64; N]
    ensures { N ≡ length result }
{
    [0.0; N]
}

// What a text of n bytes and these sizes comes to, of which the other lines are left. As of all that read here, the
// doubles of its question are written to the front of `lines`: the resolution, the knots, the points, the box.
fn read_numbers(
    rest: &[u8],
    n: usize,
    rev: usize,
    s: Sizes,
    lines: &mut [f64; 303],
) -> Result<Asked, Refusal>
    requires { Small s }
    ensures { TextRead (complete_by rev s n (numbers s rest.now)) lines.new result }
{
    let Some((nodes, left)) = numbers(rest, s, lines) else {
        return Err(Refusal::Text);
    };
    if 65536 < n {
        return Err(Refusal::Text);
    }
    if !left.is_empty() {
        return Err(Refusal::Text);
    }
    Ok(Asked {
        rev,
        sizes: s,
        nodes,
    })
}

// What a text of n bytes in this revision comes to, of which the lines behind that of the revision are left.
fn read_sizes(rest: &[u8], n: usize, rev: usize, lines: &mut [f64; 303]) -> Result<Asked, Refusal>
    ensures { TextRead (read_by rev n (sizes rest.now)) lines.new result }
{
    let Some((s, left)) = sizes(rest) else {
        return Err(Refusal::Text);
    };
    sizes_refusal(s.dim, s.degree, s.count)?;
    read_numbers(left, n, rev, s, lines)
}

// What a text comes to.
pub(crate) fn read(text: &[u8], lines: &mut [f64; 303]) -> Result<Asked, Refusal>
    ensures { TextRead (reading text.now) lines.new result }
{
    let Some((rev, rest)) = revision(text) else {
        return Err(Refusal::Text);
    };
    revision_refusal(rev)?;
    read_sizes(rest, text.len(), rev, lines)
}
