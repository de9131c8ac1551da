//! Little-endian numbers in bytes.
ghost use Rattle.std.specs.Prelude.{◌≡◌, ◌+◌, ◌≤◌, length, slice_range};
ghost use Rattle.bw_model.specs.Bytes.{u16_at, u32_at, u64_at};

/// The little-endian number in the two bytes at a place. Both must be there.
pub fn read_u16(bytes: &[u8], at: usize) -> u16
    requires { at + 2 ≤ length bytes.now }
    ensures { result ≡ u16_at bytes.now at }
{
    let part = &bytes[at..at + 2];
    u16::from_le_bytes([part[0], part[1]])
}

/// The little-endian number in the four bytes at a place. All must be there.
pub fn read_u32(bytes: &[u8], at: usize) -> u32
    requires { at + 4 ≤ length bytes.now }
    ensures { result ≡ u32_at bytes.now at }
{
    let part = &bytes[at..at + 4];
    u32::from_le_bytes([part[0], part[1], part[2], part[3]])
}

/// The little-endian number in the eight bytes at a place. All must be there.
pub fn read_u64(bytes: &[u8], at: usize) -> u64
    requires { at + 8 ≤ length bytes.now }
    ensures { result ≡ u64_at bytes.now at }
{
    let part = &bytes[at..at + 8];
    u64::from_le_bytes([
        part[0], part[1], part[2], part[3], part[4], part[5], part[6], part[7],
    ])
}

/// The four bytes at a place. All must be there.
pub fn read_id(bytes: &[u8], at: usize) -> [u8; 4]
    requires { at + 4 ≤ length bytes.now }
    ensures { result ≡ slice_range bytes.now at (at + 4) }
{
    let part = &bytes[at..at + 4];
    [part[0], part[1], part[2], part[3]]
}
