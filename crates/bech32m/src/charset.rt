// The characters of Bech32 and their values, both ways.
ghost use Rattle.std.specs.Prelude.{◌≡◌};
ghost use Rattle.bech32m.specs.Checksum.{character_of, value_of};

// The characters of the values, in their order.
const CHARSET: [u8; 32] = [
    113, 112, 122, 114, 121, 57, 120, 56, 103, 102, 50, 116, 118, 100, 119, 48, 115, 51, 106, 110,
    53, 52, 107, 104, 99, 101, 54, 109, 117, 97, 55, 108,
];

// The value of each character; 32 where it has none.
const VALUES: [u8; 256] = [
    32, 32, 32, 32, 32, 32, 32, 32, 32, 32, 32, 32, 32, 32, 32, 32, 32, 32, 32, 32, 32, 32, 32, 32,
    32, 32, 32, 32, 32, 32, 32, 32, 32, 32, 32, 32, 32, 32, 32, 32, 32, 32, 32, 32, 32, 32, 32, 32,
    15, 32, 10, 17, 21, 20, 26, 30, 7, 5, 32, 32, 32, 32, 32, 32, 32, 29, 32, 24, 13, 25, 9, 8, 23,
    32, 18, 22, 31, 27, 19, 32, 1, 0, 3, 16, 11, 28, 12, 14, 6, 4, 2, 32, 32, 32, 32, 32, 32, 29,
    32, 24, 13, 25, 9, 8, 23, 32, 18, 22, 31, 27, 19, 32, 1, 0, 3, 16, 11, 28, 12, 14, 6, 4, 2, 32,
    32, 32, 32, 32, 32, 32, 32, 32, 32, 32, 32, 32, 32, 32, 32, 32, 32, 32, 32, 32, 32, 32, 32, 32,
    32, 32, 32, 32, 32, 32, 32, 32, 32, 32, 32, 32, 32, 32, 32, 32, 32, 32, 32, 32, 32, 32, 32, 32,
    32, 32, 32, 32, 32, 32, 32, 32, 32, 32, 32, 32, 32, 32, 32, 32, 32, 32, 32, 32, 32, 32, 32, 32,
    32, 32, 32, 32, 32, 32, 32, 32, 32, 32, 32, 32, 32, 32, 32, 32, 32, 32, 32, 32, 32, 32, 32, 32,
    32, 32, 32, 32, 32, 32, 32, 32, 32, 32, 32, 32, 32, 32, 32, 32, 32, 32, 32, 32, 32, 32, 32, 32,
    32, 32, 32, 32, 32, 32, 32, 32, 32, 32, 32, 32,
];

// The character of a value; 0 from 32 on.
pub fn character_of(value: u8) -> u8
    ensures { result ≡ character_of value }
{
    if value < 32 {
        return CHARSET[value as usize];
    }
    0
}

// The value of a character in either case; 32 where it has none.
pub fn value_of(character: u8) -> u8
    ensures { result ≡ value_of character }
{
    VALUES[character as usize]
}
