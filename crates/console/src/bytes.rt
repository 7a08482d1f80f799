// Bytes and numbers out of a slice. Past its end everything is 0: what a program prints is read from
// books and areas whose lengths it has not proved anything of.
ghost use Rattle.std.specs.Prelude.{◌≤◌};

pub(crate) fn byte_at(bytes: &[u8], at: usize) -> u8 {
    bytes.get(at).copied().unwrap_or(0)
}

// The same, to count with.
pub(crate) fn count_at(bytes: &[u8], at: usize) -> usize
    ensures { result ≤ 255 }
{
    byte_at(bytes, at) as usize
}

// The number in the four bytes from `at` on.
pub(crate) fn number_at(bytes: &[u8], at: usize) -> u32
    requires { at ≤ 1000000 }
{
    u32::from_le_bytes([
        byte_at(bytes, at),
        byte_at(bytes, at + 1),
        byte_at(bytes, at + 2),
        byte_at(bytes, at + 3),
    ])
}
