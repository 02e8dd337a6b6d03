// Words of 16, 32 and 64 bits in bytes that a caller lends, in both byte orders: the survey file, the layers and the ids are
// big-endian, workspaces little-endian. LLVM makes one load or one store of each.
#![tactic(auto)]

ghost use Rattle.std.specs.Prelude.{◌≡◌, ◌+◌, ◌≤◌, ◌<◌, length};
ghost use Rattle.words.specs.Word.{big, little, word, stored};

pub mod bytes;

// The big-endian word of 16 bits at `at`.
#[tactic(auto, using(crate::proofs::Std::read_big_2))]
pub fn read16_big(s: &[u8], at: usize) -> u32
    requires { at + 2 ≤ length s.now }
    ensures { (result ≡ word big 2 s.now at) × (result < 65536) }
{
    u16::from_be_bytes(s[at..at + 2].try_into().unwrap()) as u32
}

// The big-endian word of 32 bits at `at`.
#[tactic(auto, using(crate::proofs::Std::read_big_4))]
pub fn read32_big(s: &[u8], at: usize) -> u32
    requires { at + 4 ≤ length s.now }
    ensures { (result ≡ word big 4 s.now at) × (result < 4294967296) }
{
    u32::from_be_bytes(s[at..at + 4].try_into().unwrap())
}

// The little-endian word of 32 bits at `at`.
#[tactic(auto, using(crate::proofs::Std::read_little_4))]
pub fn read32_little(s: &[u8], at: usize) -> u32
    requires { at + 4 ≤ length s.now }
    ensures { (result ≡ word little 4 s.now at) × (result < 4294967296) }
{
    u32::from_le_bytes(s[at..at + 4].try_into().unwrap())
}

// The big-endian word of 64 bits at `at`.
#[tactic(auto, using(crate::proofs::Std::read_big_8))]
pub fn read64_big(s: &[u8], at: usize) -> u64
    requires { at + 8 ≤ length s.now }
    ensures { result ≡ word big 8 s.now at }
{
    u64::from_be_bytes(s[at..at + 8].try_into().unwrap())
}

// The little-endian word of 64 bits at `at`.
#[tactic(auto, using(crate::proofs::Std::read_little_8))]
pub fn read64_little(s: &[u8], at: usize) -> u64
    requires { at + 8 ≤ length s.now }
    ensures { result ≡ word little 8 s.now at }
{
    u64::from_le_bytes(s[at..at + 8].try_into().unwrap())
}

// Stores the lower 16 bits of `value` at `at` as a big-endian word.
#[tactic(auto, using(crate::proofs::Std::written_big))]
pub fn write16_big(s: &mut [u8], at: usize, value: u32)
    requires { at + 2 ≤ length s.old }
    ensures { s.new ≡ stored big 2 s.old at value }
{
    s[at..at + 2].copy_from_slice(&value.to_be_bytes()[2..]);
}

// Stores `value` at `at` as a big-endian word of 32 bits.
#[tactic(auto, using(crate::proofs::Std::written_big))]
pub fn write32_big(s: &mut [u8], at: usize, value: u32)
    requires { at + 4 ≤ length s.old }
    ensures { s.new ≡ stored big 4 s.old at value }
{
    s[at..at + 4].copy_from_slice(&value.to_be_bytes());
}

// Stores `value` at `at` as a little-endian word of 32 bits.
#[tactic(auto, using(crate::proofs::Std::written_little))]
pub fn write32_little(s: &mut [u8], at: usize, value: u32)
    requires { at + 4 ≤ length s.old }
    ensures { s.new ≡ stored little 4 s.old at value }
{
    s[at..at + 4].copy_from_slice(&value.to_le_bytes());
}

// Stores `value` at `at` as a big-endian word of 64 bits.
#[tactic(auto, using(crate::proofs::Std::written_big))]
pub fn write64_big(s: &mut [u8], at: usize, value: u64)
    requires { at + 8 ≤ length s.old }
    ensures { s.new ≡ stored big 8 s.old at value }
{
    s[at..at + 8].copy_from_slice(&value.to_be_bytes());
}

// Stores `value` at `at` as a little-endian word of 64 bits.
#[tactic(auto, using(crate::proofs::Std::written_little))]
pub fn write64_little(s: &mut [u8], at: usize, value: u64)
    requires { at + 8 ≤ length s.old }
    ensures { s.new ≡ stored little 8 s.old at value }
{
    s[at..at + 8].copy_from_slice(&value.to_le_bytes());
}
