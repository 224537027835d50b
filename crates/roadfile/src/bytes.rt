// Little-endian numbers in a run of bytes. Two functions of two lines: std has no trait for the `from_le_bytes` of both types, and
// a crate that has one would be a crate more for four lines.
ghost use Rattle.std.specs.Prelude.{◌≡◌, ◌≤◌, ◌++◌, length};
ghost use Rattle.roadfile.specs.Format.{little};

// The 16-bit number with which the bytes begin, and the bytes behind it.
pub(crate) fn split_u16(bytes: &[u8]) -> (u16, &[u8])
    requires { 2 ≤ length bytes.now }
    ensures { bytes.now ≡ little 2 result.0 ++ result.1.now }
{
    let (number, rest) = bytes.split_first_chunk().unwrap();
    (u16::from_le_bytes(*number), rest)
}

// The 32-bit number with which the bytes begin, and the bytes behind it.
pub(crate) fn split_u32(bytes: &[u8]) -> (u32, &[u8])
    requires { 4 ≤ length bytes.now }
    ensures { bytes.now ≡ little 4 result.0 ++ result.1.now }
{
    let (number, rest) = bytes.split_first_chunk().unwrap();
    (u32::from_le_bytes(*number), rest)
}
