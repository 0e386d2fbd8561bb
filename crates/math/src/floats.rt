// Doubles: the neighbours above and below, and the lesser and the greater of two.
// A function's promise names the definition that it equals, in specs/, for every operand, NaN and the infinities included.
ghost use Rattle.std.specs.Prelude.{◌≡◌, false};
ghost use Rattle.std.specs.Float.Ieee.{is_nan};
ghost use Rattle.math.specs.Neighbours.{next_up, next_down};
ghost use Rattle.math.specs.Picks.{lesser_f, greater_f, min_f, max_f};

// The neighbouring f64 above a number: 2^-1074 from either zero; the positive infinity stays. The bits go one up from
// zero on, and one down below it. (The library's `next_up` and `next_down` make more tests: tried, and slower.)
pub(crate) fn up(x: f64) -> f64
    requires { is_nan x ≡ false }
    ensures { result ≡ next_up x }
{
    let b = x.to_bits();
    if b < 0x7ff0_0000_0000_0000 {
        return f64::from_bits(b + 1);
    }
    if b > 0x8000_0000_0000_0000 {
        return f64::from_bits(b - 1);
    }
    if b == 0x8000_0000_0000_0000 {
        return f64::from_bits(1);
    }
    x
}

// The neighbouring f64 below a number, in the same way.
pub(crate) fn down(x: f64) -> f64
    requires { is_nan x ≡ false }
    ensures { result ≡ next_down x }
{
    let b = x.to_bits();
    if b == 0 {
        return f64::from_bits(0x8000_0000_0000_0001);
    }
    if b < 0x8000_0000_0000_0000 {
        return f64::from_bits(b - 1);
    }
    if b < 0xfff0_0000_0000_0000 {
        return f64::from_bits(b + 1);
    }
    x
}

// The neighbouring f64 above. A NaN stays, and so does the positive infinity.
pub fn next_up(x: f64) -> f64
    ensures { result ≡ next_up x }
{
    if x.is_nan() {
        return x;
    }
    up(x)
}

// The neighbouring f64 below. A NaN stays, and so does the negative infinity.
pub fn next_down(x: f64) -> f64
    ensures { result ≡ next_down x }
{
    if x.is_nan() {
        return x;
    }
    down(x)
}

pub fn is_nan(x: f64) -> bool
    ensures { result ≡ is_nan x }
{
    x.is_nan()
}

// The lesser of two by one comparison, which is one machine instruction: the first where a NaN is compared.
pub fn lesser(a: f64, b: f64) -> f64
    ensures { result ≡ lesser_f a b }
{
    if b < a { b } else { a }
}

// The greater of two, by the same rule.
pub fn greater(a: f64, b: f64) -> f64
    ensures { result ≡ greater_f a b }
{
    if a < b { b } else { a }
}

// The lesser of two: a NaN is passed over where the other is a number, and of two equal ones it is the first.
// (The library's `min` and `max` promise either of two equal ones, as 0 and -0.)
#[tactic(auto, unfolding(crate::specs::Picks::min_f))]
pub fn min(a: f64, b: f64) -> f64
    ensures { result ≡ min_f a b }
{
    if a.is_nan() {
        return b;
    }
    lesser(a, b)
}

// The greater of two, by the same rules.
#[tactic(auto, unfolding(crate::specs::Picks::max_f))]
pub fn max(a: f64, b: f64) -> f64
    ensures { result ≡ max_f a b }
{
    if a.is_nan() {
        return b;
    }
    greater(a, b)
}
