//! Samples as levels.
ghost use Rattle.std.specs.Prelude.{◌≡◌, ◌+◌, ◌≤◌, ◌<◌, length};
ghost use Rattle.bw_picture.specs.Levels.{bytes_of, level_at as level_of, levels_of};

/// How many bytes a sample of PCM has.
#[derive(Clone, Copy, Debug, PartialEq, Eq)]
pub enum SampleWidth {
    /// 16 bits.
    Two,
    /// 24 bits.
    Three,
    /// 32 bits.
    Four,
}

impl SampleWidth {
    /// How many bytes that is.
    pub fn bytes(self) -> usize
        ensures { result ≡ bytes_of self }
    {
        match self {
            SampleWidth::Two => 2,
            SampleWidth::Three => 3,
            SampleWidth::Four => 4,
        }
    }
}

/// The level of the sample whose bytes are at a place: 0 for the least sample of its width.
pub fn level_at(width: SampleWidth, bytes: &[u8], at: usize) -> u32
    requires { at + bytes_of width ≤ length bytes.now }
    ensures value { result ≡ level_of width bytes.now at }
    ensures range { result < levels_of width }
{
    match width {
        SampleWidth::Two => {
            let part = &bytes[at..at + 2];
            (u16::from_le_bytes([part[0], part[1]]) as u32 + 0x8000) % 0x1_0000
        }
        SampleWidth::Three => {
            let part = &bytes[at..at + 3];
            (u32::from_le_bytes([part[0], part[1], part[2], 0]) + 0x80_0000) % 0x100_0000
        }
        SampleWidth::Four => {
            let part = &bytes[at..at + 4];
            u32::from_le_bytes([part[0], part[1], part[2], part[3]]).wrapping_add(0x8000_0000)
        }
    }
}
