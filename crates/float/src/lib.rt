// Numbers of 64 bits by their bit patterns, after IEEE 754-2019. Each function takes every pattern, the NaNs among them, unless its contract says
// which it takes.
#![tactic(auto)]

ghost use Rattle.std.specs.Prelude.{◌≡◌, true, false, pos, from_bits, to_bits};
ghost use Rattle.std.specs.Float.{binary64, fin};
ghost use Rattle.std.specs.Float.Ieee.{nan_bits, lt, le};
ghost use Rattle.float.specs.Inner.Round.{whole_size};
ghost use Rattle.float.specs.Round.{whole_away};
ghost use Rattle.float.specs.TotalOrder.{total_key, bits_of_key};

// Whether a pattern is a NaN's: above that of the infinity, the sign aside.
pub fn is_nan(bits: u64) -> bool
    ensures { result ≡ nan_bits binary64 bits }
{
    0x7FF0_0000_0000_0000 < bits % 0x8000_0000_0000_0000
}

// The number of a pattern that is no NaN's.
pub fn value(bits: u64) -> f64
    requires { nan_bits binary64 bits ≡ false }
    ensures { result ≡ from_bits binary64 bits }
{
    f64::from_bits(bits)
}

// The number of any pattern: a NaN's is a NaN.
pub fn number(bits: u64) -> f64
    ensures { result ≡ from_bits binary64 bits }
{
    std::num::f64_from_bits_with_nan(bits)
}

// The pattern of a number: any NaN has that of the one quiet NaN whose sign is clear.
pub fn bits(x: f64) -> u64
    ensures { result ≡ to_bits binary64 x }
{
    std::num::f64_to_bits_with_nan(x)
}

// Two to the power of a resolution: the exponent's field alone.
pub fn power_of_two(resolution: u8) -> f64
    ensures { result ≡ fin false 1 (pos resolution) }
{
    value((1023 + resolution as u64) << 52)
}

// The whole number nearest to a number above zero and below 2^52, halves up: half of one more than the whole part of its double.
fn whole_size(x: f64) -> u64
    requires { (lt (fin false 0 (pos 0)) x ≡ true) × (lt x (fin false 1 (pos 52)) ≡ true) }
    ensures { result ≡ whole_size x }
{
    (std::num::truncating_f64_to_u64(x * 2.0) + 1) / 2
}

// The whole number nearest to a number from -2^30 to 2^30, halves away from zero.
pub fn nearest_whole(x: f64) -> i32
    requires { (le (fin true 1 (pos 30)) x ≡ true) × (le x (fin false 1 (pos 30)) ≡ true) }
    ensures { result ≡ whole_away x }
{
    if x > 0.0 {
        whole_size(x) as i32
    } else if x < 0.0 {
        -(whole_size(-x) as i32)
    } else {
        0
    }
}

// A key of a pattern. Keys compare as numbers the way IEEE 754's total_order compares the patterns, and no two patterns share one.
#[tactic(auto, unfolding(crate::specs::TotalOrder::total_key))]
pub fn total_order_key(bits: u64) -> u64
    ensures { result ≡ total_key bits }
{
    if bits < 0x8000_0000_0000_0000 {
        bits + 0x8000_0000_0000_0000
    } else {
        !bits
    }
}

// The pattern of a key.
#[tactic(auto, unfolding(crate::specs::TotalOrder::bits_of_key))]
pub fn key_bits(key: u64) -> u64
    ensures { result ≡ bits_of_key key }
{
    if key < 0x8000_0000_0000_0000 {
        !key
    } else {
        key - 0x8000_0000_0000_0000
    }
}
