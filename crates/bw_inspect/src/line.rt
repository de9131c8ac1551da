//! A line of text that is made in a buffer, to be written at once.
ghost use Rattle.std.specs.Prelude.{◌≡◌, ◌+◌, ◌*◌, ◌<◌, ◌≤◌, ◌∷◌, [], ◌++◌, length, decimal, map};
ghost use Rattle.std.specs.Prelude.{flat_map};
ghost use Rattle.bw_model.specs.Report.{id_byte, text_byte, hex_byte, hex_digit_of, loudness_text};

use itoa::Buffer;
use std::marker::Model;

/// The bytes of a line, at most 1,152: the longest one has the 256 bytes of a Description, up to
/// four bytes for each.
#[derive(Drop)]
pub struct Line {
    bytes: [u8; 1152],
    len: usize,
}

impl Model for Line {
    ghost use Rattle.std.specs.Prelude.{ℕ, List, ◌≤◌, take};

    ghost Value = { List ℕ };

    ghost view = { λ l. take l.len l.bytes };

    ghost invariant = { λ l. l.len ≤ 1152 };
}

impl Line {
    /// An empty line.
    pub fn new() -> Line
        ensures { result ≡ [] }
    {
        Line {
            bytes: [0; 1152],
            len: 0,
        }
    }

    /// Its bytes.
    pub fn as_slice(&self) -> &[u8]
        ensures { result.now ≡ self.now }
    {
        &self.bytes[..self.len]
    }

    /// Appends a text: at most 1,152 bytes in all.
    pub fn put(&mut self, text: &[u8])
        requires { length self.old + length text.now ≤ 1152 }
        ensures { self.new ≡ self.old ++ text.now }
    {
        let end = self.len + text.len();
        self.bytes[self.len..end].copy_from_slice(text);
        self.len = end;
    }

    /// Appends the decimal digits of a number.
    pub fn put_number(&mut self, number: u64)
        requires { length self.old ≤ 1112 }
        ensures text { self.new ≡ self.old ++ decimal number }
        ensures short { length self.new ≤ length self.old + 40 }
    {
        let mut buffer = Buffer::new();
        self.put(buffer.format(number).as_bytes());
    }

    /// Appends a blank, a name, `=` and a number.
    pub fn put_number_field(&mut self, name: &str, number: u64)
        requires { length self.old + length name.now ≤ 1110 }
        ensures text { self.new ≡ self.old ++ 32 ∷ (name.now ++ 61 ∷ decimal number) }
        ensures short { length self.new ≤ length self.old + length name.now + 42 }
    {
        self.put(b" ");
        self.put(name.as_bytes());
        self.put(b"=");
        self.put_number(number);
    }

    /// Appends a chunk's id, with a full stop for each byte that is not visible ASCII.
    pub fn put_id(&mut self, id: &[u8; 4])
        requires { length self.old ≤ 1148 }
        ensures text { self.new ≡ self.old ++ map id_byte id.now }
        ensures short { length self.new ≡ length self.old + 4 }
    {
        self.put(&id.map(|byte| if byte.is_ascii_graphic() { byte } else { b'.' }));
    }

    /// Appends a text, with `\x` and two digits for a backslash and for each byte that is not
    /// printable ASCII.
    pub fn put_text(&mut self, text: &[u8])
        requires { length self.old + 4 * length text.now ≤ 1152 }
        ensures text { self.new ≡ self.old ++ flat_map text_byte text.now }
        ensures short { length self.new ≤ length self.old + 4 * length text.now }
    {
        for byte in text {
            self.put_text_byte(*byte);
        }
    }

    fn put_text_byte(&mut self, byte: u8)
        requires { length self.old ≤ 1148 }
        ensures text { self.new ≡ self.old ++ text_byte byte }
        ensures short { length self.new ≤ length self.old + 4 }
    {
        match byte {
            b'\\' => self.put(b"\\x5c"),
            b' '..=b'~' => self.put(&[byte]),
            _ => {
                self.put(b"\\x");
                self.put_hex(&[byte]);
            }
        }
    }

    /// Appends two hex digits for each byte, in lower case.
    pub fn put_hex(&mut self, bytes: &[u8])
        requires { length self.old + 2 * length bytes.now ≤ 1152 }
        ensures text { self.new ≡ self.old ++ flat_map hex_byte bytes.now }
        ensures short { length self.new ≡ length self.old + 2 * length bytes.now }
    {
        for byte in bytes {
            self.put(&[hex_digit(*byte / 16), hex_digit(*byte % 16)]);
        }
    }

    /// Appends the signed 16-bit number, or `unset` for 7FFFh, which means not given.
    pub fn put_level(&mut self, level: u16)
        requires { length self.old ≤ 1111 }
        ensures text { self.new ≡ self.old ++ loudness_text level }
        ensures short { length self.new ≤ length self.old + 41 }
    {
        if level == 0x7fff {
            self.put(b"unset");
        } else if level < 0x8000 {
            self.put_number(level.into());
        } else {
            self.put(b"-");
            self.put_number(0x1_0000 - u64::from(level));
        }
    }
}

/// A hex digit, in lower case.
fn hex_digit(value: u8) -> u8
    requires { value < 16 }
    ensures { result ≡ hex_digit_of value }
{
    if value < 10 {
        b'0' + value
    } else {
        b'a' + (value - 10)
    }
}
