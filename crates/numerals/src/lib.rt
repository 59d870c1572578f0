// Numbers in decimal digits, read from their bytes.
#![tactic(auto)]

ghost use Rattle.std.specs.Prelude.{◌≤◌, ◌<◌, min, ◌≡◌, true, length};
ghost use Rattle.numerals.specs.Numerals.{longest_number, all_digits, no_leading_zero, is_number, digits_after, numeral_value};

// The most digits that are read: a number of so many digits fits 64 bits.
const LONGEST_NUMBER: usize = 19;

// Whether all bytes are digits.
fn all_digits(w: &[u8]) -> bool
    ensures { result ≡ all_digits w.now }
{
    w.iter().all(|b| b.is_ascii_digit())
}

// Whether there is no zero before other digits.
fn no_leading_zero(w: &[u8]) -> bool
    requires { 0 < length w.now }
    ensures { result ≡ no_leading_zero w.now }
{
    w.len() == 1 || w[0] != b'0'
}

// Whether the bytes are a number in one to `most` digits, and in no more than are read.
#[tactic(auto, unfolding(crate::specs::Numerals::is_number))]
fn is_number(w: &[u8], most: usize) -> bool
    ensures { result ≡ is_number (min most longest_number) w.now }
{
    !w.is_empty() && w.len() <= most.min(LONGEST_NUMBER) && no_leading_zero(w) && all_digits(w)
}

// The number that digits stand for.
fn digits_value(w: &[u8]) -> u64
    requires w_len_bound { length w.now ≤ longest_number }
    requires w_value { all_digits w.now ≡ true }
    ensures { result ≡ digits_after 0 w.now }
{
    let mut n: u64 = 0;
    for b in w {
        n = n * 10 + u64::from(*b - b'0');
    }
    n
}

// The value of a number in one to `most` digits, of which no more than 19 are read.
pub fn read_digits(w: &[u8], most: usize) -> Option<u64>
    ensures { result ≡ numeral_value (min most longest_number) w.now }
{
    if is_number(w, most) {
        Some(digits_value(w))
    } else {
        None
    }
}
