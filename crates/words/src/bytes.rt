// Lent bytes zeroed and copied.
ghost use Rattle.std.specs.Prelude.{◌≡◌, ◌++◌, ◌+◌, ◌-◌, ◌≤◌, length, take, drop, replicate};

// Zeros from one place of lent bytes up to another.
pub fn zero(bytes: &mut [u8], from: usize, to: usize)
    requires from_le_to { from ≤ to }
    requires to_in_bounds { to ≤ length bytes.old }
    ensures { bytes.new ≡ take from bytes.old ++ (replicate (to - from) 0 ++ drop to bytes.old) }
{
    bytes[from..to].fill(0);
}

// So many bytes from a place of one list into another, at a place of that one.
// Kept: `copy_from_slice` of a length that is known when it runs is a call of `memmove`, and the archive for C calls nothing but `memcpy` and `memset`.
pub fn copy(out: &mut [u8], to: usize, source: &[u8], from: usize, size: usize)
    requires size_in_bounds { to + size ≤ length out.old }
    requires size_in_bounds_2 { from + size ≤ length source.now }
    ensures { out.new ≡ take to out.old ++ (take size (drop from source.now) ++ drop (to + size) out.old) }
{
    for i in 0..size {
        out[to + i] = source[from + i];
    }
}

// The front of one list into that of another.
pub fn copy_front(out: &mut [u8], source: &[u8], size: usize)
    requires size_in_bounds { size ≤ length out.old }
    requires size_in_bounds_2 { size ≤ length source.now }
    ensures { out.new ≡ take size source.now ++ drop size out.old }
{
    copy(out, 0, source, 0, size);
}
