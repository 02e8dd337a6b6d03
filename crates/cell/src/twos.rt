// The two's complement bits of a number, and the number of the bits.
ghost use Rattle.std.specs.Prelude.{◌≡◌};
ghost use Rattle.std.specs.Int.{w32};
ghost use Rattle.std.proofs.Common.{to_z, of_z};

pub fn bits_of(a: i32) -> u32
    ensures { result ≡ of_z w32 a }
{
    a.cast_unsigned()
}

pub fn of_bits(n: u32) -> i32
    ensures { result ≡ to_z w32 n }
{
    n.cast_signed()
}
