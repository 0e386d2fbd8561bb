// By what a call, a text or an output is refused, each with its number in the papers (specs/Numbers.antt).

// What is wrong. README.md has a row for each that a program or the library gives, and what to do.
#[derive(Clone, Copy, Debug, PartialEq, Eq)]
pub enum Refusal {
    // 1: the dimension.
    Dim,
    // 2: the degree.
    Degree,
    // 3: the count of the points.
    Count,
    // 4: a slice has another length than the sizes give.
    Length,
    // 5: a number is a NaN, infinite or too large, or the resolution is below 0.
    Value,
    // 6: a lo is above its hi.
    Order,
    // 7: a weight's lo is not above 0.
    Weight,
    // 8: the knots.
    Knots,
    // 9: the nodes.
    Nodes,
    // 10: the work area is too short.
    Work,
    // 11: the weight of a cut piece has a lo that is not above 0.
    Piece,
    // 12: a text is not of the form.
    Text,
    // 14: a limit of the training cart.
    Cart,
    // 15: an output is too short.
    Room,
    // 16: the revision.
    Revision,
    // 23: a sheet is full.
    Sheet,
}
