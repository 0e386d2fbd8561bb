// What a text asks.
ghost use Rattle.std.specs.Prelude.{◌≤◌};

// The sizes of a curve.
#[derive(Clone, Copy)]
pub struct Sizes {
    pub dim: usize,
    pub degree: usize,
    pub count: usize,
}

// The numbers of a question, but for its doubles. Its sizes are in range.
#[derive(Clone, Copy)]
pub struct Asked {
    pub rev: usize,
    pub sizes: Sizes,
    pub nodes: usize,
    ghost small: { (sizes.dim ≤ 3) × (sizes.degree ≤ 7) × (sizes.count ≤ 32) },
}

// The doubles of a question, where they stand.
#[derive(Clone, Copy)]
pub(crate) struct Doubles<'a> {
    pub resolution: f64,
    pub knots: &'a [f64],
    pub points: &'a [f64],
    pub sides: &'a [f64],
}

impl Asked {
    ghost use Rattle.std.specs.Prelude.{◌≡◌};
    ghost use Rattle.text.specs.Cursor.{Long, numbers_in};

    // The doubles of this question, which `lines` begins with: the resolution, the knots, the points, the box.
    pub(crate) fn doubles(self, lines: &[f64; 303]) -> Doubles
        ensures resolution { result.resolution ≡ (numbers_in self.sizes self.nodes lines.now).resolution }
        ensures knots { result.knots.now ≡ (numbers_in self.sizes self.nodes lines.now).knots }
        ensures points { result.points.now ≡ (numbers_in self.sizes self.nodes lines.now).points }
        ensures sides { result.sides.now ≡ (numbers_in self.sizes self.nodes lines.now).box }
        ensures long { Long self.sizes result.knots.now result.points.now result.sides.now }
    {
        let s = self.sizes;
        let k = 1 + (s.count + s.degree + 1);
        let p = k + 2 * (s.dim + 1) * s.count;
        let b = p + 2 * s.dim;
        Doubles {
            resolution: lines[0],
            knots: &lines[1..k],
            points: &lines[k..p],
            sides: &lines[p..b],
        }
    }
}
