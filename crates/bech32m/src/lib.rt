// Bech32m, the checksum and the strings of BIP 350, over any prefix: a string is a prefix, the separator `1` and values of five bits, a character each, of which the last six are the checksum.
#![tactic(auto)]

ghost use Rattle.std.specs.Prelude.{◌≡◌, ℕ, Bool, Some, map, drop};
ghost use Rattle.bech32m.specs.Text.{Tests, is_lower, is_upper, lowered, first_from};
ghost use Rattle.bech32m.specs.Checksum.{value_of, digits, chosen, generators, step, polymod, expanded, verified};
ghost use Rattle.bech32m.specs.Checksum.{created};
ghost use Rattle.bech32m.specs.Valid.{is_unprintable, is_unknown, is_of, is_mixed, separator_of, is_valid_at, is_valid};

pub mod charset;

// What is looked for in a string.
// Kept: a function that takes a test, as `first_from`, asks that it can be called with any character; `first_of_kind` asks nothing.
#[derive(Clone, Copy)]
pub enum Kind {
    // A letter from a to z.
    Lower,
    // A letter from A to Z.
    Upper,
    // No character from 33 to 126.
    Unprintable,
    // A character that stands for no value.
    Unknown,
}

// A letter from a to z.
pub fn is_lower(character: u8) -> bool
    ensures { result ≡ is_lower character }
{
    character.is_ascii_lowercase()
}

// A letter from A to Z.
pub fn is_upper(character: u8) -> bool
    ensures { result ≡ is_upper character }
{
    character.is_ascii_uppercase()
}

// No character from 33 to 126.
pub fn is_unprintable(character: u8) -> bool
    ensures { result ≡ is_unprintable character }
{
    !(33..=126).contains(&character)
}

// A character that stands for no value.
pub fn is_unknown(character: u8) -> bool
    ensures { result ≡ is_unknown character }
{
    charset::value_of(character) == 32
}

// Whether a character is of a kind.
#[tactic(auto, unfolding(crate::specs::Valid::is_of))]
pub fn is_of(kind: Kind, character: u8) -> bool
    ensures { result ≡ is_of kind character }
{
    match kind {
        Kind::Lower => is_lower(character),
        Kind::Upper => is_upper(character),
        Kind::Unprintable => is_unprintable(character),
        Kind::Unknown => is_unknown(character),
    }
}

// A letter in lower case.
pub fn lowered(character: u8) -> u8
    ensures { result ≡ lowered character }
{
    character.to_ascii_lowercase()
}

// The first character that passes a test, from a place on.
pub fn first_from<F: Fn(u8) -> bool>(is: F, text: &[u8], from: usize) -> Option<usize>
    requires { F.IsAlwaysCallable is }
    ensures { (test : ℕ → Bool) → Tests (F.post is) test → result ≡ first_from test from (drop from text.now) }
{
    (from..text.len()).find(|i| is(text[*i]))
}

// The first character of a kind, from a place on.
pub fn first_of_kind(kind: Kind, text: &[u8], from: usize) -> Option<usize>
    ensures { result ≡ first_from (is_of kind) from (drop from text.now) }
{
    (from..text.len()).find(|i| is_of(kind, text[*i]))
}

// The last `1` parts prefix and data.
fn separator_of(text: &[u8]) -> Option<usize>
    ensures { result ≡ separator_of text.now }
{
    text.iter().rposition(|c| *c == b'1')
}

fn chosen(b: u32, generator: u32) -> u32
    ensures { result ≡ chosen b generator }
{
    if b % 2 == 1 { generator } else { 0 }
}

// The generators of the bits that leave the sum.
fn generators(b: u32) -> u32
    ensures { result ≡ generators b }
{
    chosen(b, 0x3b6a57b2)
        ^ chosen(b / 2, 0x26508e6d)
        ^ chosen(b / 4, 0x1ea119fa)
        ^ chosen(b / 8, 0x3d4233dd)
        ^ chosen(b / 16, 0x2a1462b3)
}

// The checksum's sum with one more value.
fn step(sum: u32, value: u8) -> u32
    ensures { result ≡ step sum value }
{
    sum % 33554432 * 32 ^ value as u32 ^ generators(sum / 33554432)
}

// The sum of a prefix in either case.
fn sum_prefix(prefix: &[u8]) -> u32
    ensures { result ≡ polymod (expanded (map lowered prefix.now)) }
{
    let highs = prefix.iter().map(|c| lowered(*c) / 32).fold(1, step);
    prefix
        .iter()
        .map(|c| lowered(*c) % 32)
        .fold(step(highs, 0), step)
}

// BIP 350's constant: the sum of a right string.
const CONSTANT: u32 = 0x2bc830a3;

// Whether characters end with the checksum of a prefix and the characters before it.
pub fn verify_characters(prefix: &[u8], characters: &[u8]) -> bool
    ensures { result ≡ verified (map lowered prefix.now) (map value_of characters.now) }
{
    let values = characters.iter().map(|c| charset::value_of(*c));
    values.fold(sum_prefix(prefix), step) == CONSTANT
}

fn six_digits(n: u32) -> [u8; 6]
    ensures { result ≡ digits 6 n }
{
    [
        (n / 33554432 % 32) as u8,
        (n / 1048576 % 32) as u8,
        (n / 32768 % 32) as u8,
        (n / 1024 % 32) as u8,
        (n / 32 % 32) as u8,
        (n % 32) as u8,
    ]
}

// The checksum of a prefix and values.
pub fn create_checksum(prefix: &[u8], values: &[u8]) -> [u8; 6]
    ensures { result ≡ created (map lowered prefix.now) values.now }
{
    let sum = values
        .iter()
        .copied()
        .chain([0; 6])
        .fold(sum_prefix(prefix), step);
    six_digits(sum ^ CONSTANT)
}

// Some letters are upper case and some are lower case.
fn is_mixed(text: &[u8]) -> bool
    ensures { result ≡ is_mixed text.now }
{
    text.iter().any(|c| is_lower(*c)) && text.iter().any(|c| is_upper(*c))
}

// A prefix, six or more characters with values, and a right checksum, with the separator at a place.
fn is_valid_at(text: &[u8], at: usize) -> bool
    ensures { result ≡ is_valid_at text.now (Some at) }
{
    if at < 1 || text.len() < 7 || text.len() - 7 < at {
        return false;
    }
    let characters = &text[at + 1..];
    !characters.iter().any(|c| is_unknown(*c)) && verify_characters(&text[..at], characters)
}

// What BIP 350 calls a valid string.
pub fn is_valid(text: &[u8]) -> bool
    ensures { result ≡ is_valid text.now }
{
    !text.iter().any(|c| is_unprintable(*c))
        && !is_mixed(text)
        && text.len() <= 90
        && separator_of(text).is_some_and(|at| is_valid_at(text, at))
}

#[cfg(test)]
mod tests {
    use super::*;

    // What `first_from` promises of a test that has a definition; nothing else in this repository calls it.
    fn first_upper(text: &[u8], from: usize) -> Option<usize>
        ensures { result ≡ first_from is_upper from (drop from text.now) }
    {
        first_from(is_upper, text, from)
    }

    // In `1qA1b` the places of a `1` are 0 and 3, that of a capital letter is 2.
    #[test]
    fn places_by_any_test(rt: HostRuntime) {
        let text = b"1qA1b".as_slice();
        for (from, place) in [
            (0, Some(0)),
            (1, Some(3)),
            (3, Some(3)),
            (4, None),
            (6, None),
        ] {
            assert_eq!(rt; first_from(|c| c == b'1', text, from), place, "from {from}");
        }
        assert_eq!(rt; first_upper(text, 0), Some(2));
        assert_eq!(rt; first_of_kind(Kind::Upper, text, 0), Some(2));
    }
}
