// The flags of a cell: the bits of a 32-bit word. Only BLOCKED keeps a cell from being entered; the other names are given to users, in include/tishkolan.h.
ghost use Rattle.std.specs.Prelude.{◌≡◌};
ghost use Rattle.table.specs.Flags.{has_flag, with_flag, without_flag, is_blocked};

const BLOCKED: u32 = 1;

// Whether any of a flag's bits is set.
pub fn has_flag(bits: u32, flag: u32) -> bool
    ensures { result ≡ has_flag bits flag }
{
    bits & flag != 0
}

// All of a flag's bits set, the others as they are.
pub fn set_flag(bits: u32, flag: u32) -> u32
    ensures { result ≡ with_flag bits flag }
{
    bits | flag
}

// None of a flag's bits set, the others as they are.
pub fn clear_flag(bits: u32, flag: u32) -> u32
    ensures { result ≡ without_flag bits flag }
{
    bits & !flag
}

// Whether a cell with these flags may not be entered.
pub fn is_blocked(bits: u32) -> bool
    ensures { result ≡ is_blocked bits }
{
    has_flag(bits, BLOCKED)
}
