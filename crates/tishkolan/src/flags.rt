// The flags of a cell for C: the bits of a 32-bit word.
ghost use Rattle.std.specs.Prelude.{◌≡◌};
ghost use Rattle.table.specs.Flags.{has_flag, with_flag, without_flag, is_blocked};

// Whether any of a flag's bits is set.
pub fn tishkolan_has_flag(flags: u32, flag: u32) -> bool
    ensures { result ≡ has_flag flags flag }
{
    table::flags::has_flag(flags, flag)
}

// All of a flag's bits set, the others as they are.
pub fn tishkolan_set_flag(flags: u32, flag: u32) -> u32
    ensures { result ≡ with_flag flags flag }
{
    table::flags::set_flag(flags, flag)
}

// None of a flag's bits set, the others as they are.
pub fn tishkolan_clear_flag(flags: u32, flag: u32) -> u32
    ensures { result ≡ without_flag flags flag }
{
    table::flags::clear_flag(flags, flag)
}

// Whether a cell with these flags may not be entered.
pub fn tishkolan_is_blocked(flags: u32) -> bool
    ensures { result ≡ is_blocked flags }
{
    table::flags::is_blocked(flags)
}
