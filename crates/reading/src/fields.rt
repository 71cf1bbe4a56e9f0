// Reads the numbers that the fields of a line write.
ghost use Rattle.std.specs.Prelude.{◌≡◌, [], ◌∷◌, None, MatchOption};
ghost use Rattle.reading.specs.Parts.{fields_of};
ghost use Rattle.reading.specs.Numbers.{digit_of, number_of, three_of};

use crate::cuts::cut;

// With so many digits every number fits.
const MOST_DIGITS: usize = 15;

// No plainer by `char::to_digit`, which wants a char and a radix and answers a u32.
fn digit(byte: u8) -> Option<u64>
    ensures { result ≡ digit_of byte }
{
    match byte {
        b'0'..=b'9' => Some((byte - b'0') as u64),
        _ => None,
    }
}

// The number that a field writes. `parse` would take a sign too.
pub fn number(field: &[u8]) -> Option<u64>
    ensures { result ≡ number_of field.now }
{
    if field.is_empty() || field.len() > MOST_DIGITS {
        return None;
    }
    let mut value = 0;
    // A `try_fold` is no plainer: what bounds the sum is a fact about the bytes read so far.
    for byte in field {
        value = 10 * value + digit(*byte)?;
    }
    Some(value)
}

// The fields of a line that has just three.
fn three_fields(line: &[u8]) -> Option<(&[u8], &[u8], &[u8])>
    ensures { MatchOption result (three_of line.now ≡ None) (λ f. fields_of line.now ≡ f.0.now ∷ f.1.now ∷ f.2.now ∷ []) }
{
    let (first, rest) = cut(line, b',');
    let (second, rest) = cut(rest?, b',');
    let (third, rest) = cut(rest?, b',');
    if rest.is_some() {
        return None;
    }
    Some((first, second, third))
}

// The three numbers of a line that has just three fields, each a number.
pub fn three_numbers(line: &[u8]) -> Option<(u64, u64, u64)>
    ensures { result ≡ three_of line.now }
{
    let (first, second, third) = three_fields(line)?;
    Some((number(first)?, number(second)?, number(third)?))
}
