// Numbers in a text: small ones in decimal, doubles as the hexadecimal digits of their bits.
ghost use Rattle.std.specs.Prelude.{◌≡◌, true, ◌≤◌, length, take};
ghost use Rattle.std.specs.List.{list_all, prefix_len};
ghost use Rattle.std.specs.Char.{is_ascii_digit};
ghost use Rattle.lists.specs.Lists.{all};
ghost use Rattle.text.specs.Numerals.{is_digit, digits, decimal_of, is_small, small};
ghost use Rattle.text.specs.Numerals.{nibble, is_hex, hex_of, double_of, double};
ghost use Rattle.text.specs.Cursor.{SmallRead, read_of};

// How many digits these bytes begin with.
fn leading(s: &[u8]) -> usize
    ensures { result ≡ prefix_len is_ascii_digit s.now }
{
    s.iter().take_while(|b| b.is_ascii_digit()).count()
}

// How many digits the text begins with: these are digits. (Beside `leading`, whose promise the check finds by itself.)
fn digits(rest: &[u8]) -> usize
    ensures { let t = rest.now in
        (result ≡ digits t) × (result ≤ length t) × (all is_digit (take result t) ≡ true) }
{
    leading(rest)
}

// The number that at most nine digits are.
fn decimal_of(digits: &[u8]) -> usize
    requires { (length digits.now ≤ 9) × (all is_digit digits.now ≡ true) }
    ensures { (result ≡ decimal_of digits.now) × (result ≤ 999999999) }
{
    let mut v = 0;
    for b in digits {
        v = 10 * v + usize::from(*b - 48);
    }
    v
}

// The first n bytes, which are digits, are a small number: one to nine, and no leading zero.
fn is_small(rest: &[u8], n: usize) -> bool
    requires { n ≤ length rest.now }
    ensures { result ≡ is_small n rest.now }
{
    if n < 1 {
        return false;
    }
    if 9 < n {
        return false;
    }
    if n == 1 {
        return true;
    }
    rest[0] != 48
}

// A small number at the front, and what is left behind it. It is so of all that read here and in question.rt.
pub(crate) fn small(rest: &[u8]) -> Option<(usize, &[u8])>
    ensures { SmallRead (small rest.now) result }
{
    let n = digits(rest);
    if !is_small(rest, n) {
        return None;
    }
    let (front, left) = rest.split_at(n);
    Some((decimal_of(front), left))
}

// What each byte is as a hexadecimal digit of either case, and 16 where it is none.
static NIBBLES: [u8; 256] = [
    16, 16, 16, 16, 16, 16, 16, 16, 16, 16, 16, 16, 16, 16, 16, 16, 16, 16, 16, 16, 16, 16, 16, 16,
    16, 16, 16, 16, 16, 16, 16, 16, 16, 16, 16, 16, 16, 16, 16, 16, 16, 16, 16, 16, 16, 16, 16, 16,
    0, 1, 2, 3, 4, 5, 6, 7, 8, 9, 16, 16, 16, 16, 16, 16, 16, 10, 11, 12, 13, 14, 15, 16, 16, 16,
    16, 16, 16, 16, 16, 16, 16, 16, 16, 16, 16, 16, 16, 16, 16, 16, 16, 16, 16, 16, 16, 16, 16, 10,
    11, 12, 13, 14, 15, 16, 16, 16, 16, 16, 16, 16, 16, 16, 16, 16, 16, 16, 16, 16, 16, 16, 16, 16,
    16, 16, 16, 16, 16, 16, 16, 16, 16, 16, 16, 16, 16, 16, 16, 16, 16, 16, 16, 16, 16, 16, 16, 16,
    16, 16, 16, 16, 16, 16, 16, 16, 16, 16, 16, 16, 16, 16, 16, 16, 16, 16, 16, 16, 16, 16, 16, 16,
    16, 16, 16, 16, 16, 16, 16, 16, 16, 16, 16, 16, 16, 16, 16, 16, 16, 16, 16, 16, 16, 16, 16, 16,
    16, 16, 16, 16, 16, 16, 16, 16, 16, 16, 16, 16, 16, 16, 16, 16, 16, 16, 16, 16, 16, 16, 16, 16,
    16, 16, 16, 16, 16, 16, 16, 16, 16, 16, 16, 16, 16, 16, 16, 16, 16, 16, 16, 16, 16, 16, 16, 16,
    16, 16, 16, 16, 16, 16, 16, 16, 16, 16, 16, 16, 16, 16,
];

// The value of a hexadecimal digit of either case, and 16 for any other byte. (No Option: the definition too says 16. By a
// table: which digit is a letter, no processor foresees.)
fn nibble(b: u8) -> u8
    ensures { result ≡ nibble b }
{
    NIBBLES[usize::from(b)]
}

// These bytes are all hexadecimal digits.
fn all_hex(s: &[u8]) -> bool
    ensures { result ≡ list_all is_hex s.now }
{
    s.iter().all(|b| nibble(*b) <= 15)
}

// The number that sixteen hexadecimal digits are.
fn hex_of(digits: &[u8]) -> u64
    requires { (length digits.now ≡ 16) × (all is_hex digits.now ≡ true) }
    ensures { result ≡ hex_of digits.now }
{
    let mut v = 0;
    for b in digits {
        v = 16 * v + u64::from(nibble(*b));
    }
    v
}

// The double of these bits.
fn double_of(bits: u64) -> f64
    ensures { result ≡ double_of bits }
{
    if 0x7ff0_0000_0000_0000 < bits % 0x8000_0000_0000_0000 {
        return f64::NAN;
    }
    f64::from_bits(bits)
}

// A double at the front, and what is left behind it.
pub(crate) fn double(rest: &[u8]) -> Option<(f64, &[u8])>
    ensures { read_of result ≡ double rest.now }
{
    let (digits, left) = rest.split_at_checked(16)?;
    if !all_hex(digits) {
        return None;
    }
    Some((double_of(hex_of(digits)), left))
}
