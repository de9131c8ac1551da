//! What a journal begins with.
ghost use Rattle.std.specs.Prelude.{◌≡◌, ◌≤◌, ◌++◌, IfSome, length, option_map};
ghost use Rattle.std.specs.Str.{bytes_eq};
ghost use Rattle.bw_journal.specs.JournalHeaders.{header_bytes, header_content, header_len};
ghost use Rattle.bw_journal.specs.JournalHeaders.{header_in, header_line, flag_of as flag_of_byte};
ghost use Rattle.bw_journal.specs.JournalHeaders.{first_header as first_header_in};
ghost use Rattle.bw_journal.specs.JournalHeaders.{is_torn_header as is_torn_header_of};
ghost use Rattle.bw_journal.specs.JournalHeaders.{is_torn as is_torn_of};
ghost use Rattle.bw_journal.specs.HeaderRefs.{header_said, header_found};
ghost use Rattle.bw_journal.specs.Seals.{check as check_of};

use crate::line::{END, before_zero};
use crate::seal::{check, is_check};
use bw_layout::Limit;
use bw_model::{Name, read_u32};

/// The first four bytes of a journal.
const MAGIC: [u8; 4] = *b"BWJ2";

/// What a journal begins with.
#[derive(Clone, Copy, Debug, PartialEq, Eq)]
pub struct JournalHeader {
    /// The server's limit.
    pub limit: Limit,
    /// Whether a file of the name existed before its journal.
    pub existed: bool,
}

impl JournalHeader {
    /// How many bytes a header has.
    pub const LEN: usize = 47;

    /// The 47 bytes of the header of a name's journal.
    pub fn to_bytes(&self, name: &Name) -> [u8; 47]
        ensures { result ≡ header_bytes name.now (header_said self.now) }
    {
        line_of(&self.plain(name))
    }

    /// The bytes that the digits spell.
    fn plain(&self, name: &Name) -> [u8; 21]
        ensures { result ≡ header_content name.now (header_said self.now)
            ++ check_of (header_content name.now (header_said self.now)) }
    {
        let content = self.content(name);
        let check = check(&content);
        let mut bytes = [0u8; 21];
        bytes[..13].copy_from_slice(&content);
        bytes[13..].copy_from_slice(&check[..8]);
        bytes
    }

    /// The bytes before the check.
    #[tactic(auto, unfolding(crate::specs::JournalHeaders::header_content))]
    fn content(&self, name: &Name) -> [u8; 13]
        ensures { result ≡ header_content name.now (header_said self.now) }
    {
        let digest = check(name.as_bytes());
        let mut bytes = [0u8; 13];
        bytes[..4].copy_from_slice(&(self.limit.bytes() as u32).to_le_bytes());
        bytes[4] = u8::from(self.existed);
        bytes[5..].copy_from_slice(&digest[..8]);
        bytes
    }
}

/// The line of a header with these bytes.
#[tactic(auto, unfolding(crate::specs::JournalHeaders::header_line))]
fn line_of(plain: &[u8; 21]) -> [u8; 47]
    ensures { result ≡ header_line plain.now }
{
    let mut line = [END; 47];
    line[..4].copy_from_slice(&MAGIC);
    hex::encode_to_slice(&plain[..], &mut line[4..46]).unwrap();
    line
}

/// A header as it was read.
#[derive(Clone, Copy)]
pub(crate) struct ReadHeader {
    /// The server's limit.
    pub(crate) limit: u32,
    /// Whether a file of the name existed before its journal.
    pub(crate) existed: bool,
    /// The first bytes of the name's digest.
    pub(crate) digest: [u8; 8],
}

/// The limit in the header at the start of a journal, if one is there: `OtherLimit` means that it
/// isn't the server's.
pub fn header_limit(bytes: &[u8]) -> Option<u32>
    ensures { result ≡ option_map (λ x. x.0.limit) (first_header_in bytes.now) }
{
    let header = first_header(bytes)?;
    Some(header.limit)
}

/// Whether these are the first bytes of a name's digest.
pub(crate) fn names(digest: &[u8], name: &Name) -> bool
    ensures { result ≡ bytes_eq digest.now (check_of name.now) }
{
    is_check(digest, name.as_bytes())
}

/// The header at the start of the bytes.
#[tactic(auto, unfolding(crate::specs::JournalHeaders::first_header))]
pub(crate) fn first_header(bytes: &[u8]) -> Option<ReadHeader>
    ensures value { option_map header_found result ≡ first_header_in bytes.now }
    ensures long { IfSome result (λ _. header_len ≤ length bytes.now) }
{
    if bytes.len() < JournalHeader::LEN {
        return None;
    }
    let mut plain = [0u8; 21];
    if hex::decode_to_slice(&bytes[4..46], &mut plain).is_err() {
        return None;
    }
    if bytes[..47] != line_of(&plain)[..] {
        return None;
    }
    header_of(&plain)
}

/// The header with these bytes.
#[tactic(auto, unfolding(crate::specs::JournalHeaders::header_in))]
fn header_of(plain: &[u8; 21]) -> Option<ReadHeader>
    ensures { option_map header_found result ≡ header_in plain.now }
{
    if !is_check(&plain[13..], &plain[..13]) {
        return None;
    }
    let Some(existed) = flag_of(plain[4]) else {
        return None;
    };
    let mut digest = [0u8; 8];
    digest.copy_from_slice(&plain[5..13]);
    Some(ReadHeader {
        limit: read_u32(&plain[..], 0),
        existed,
        digest,
    })
}

/// The fact of a byte.
fn flag_of(byte: u8) -> Option<bool>
    ensures { result ≡ flag_of_byte byte }
{
    match byte {
        0 => Some(false),
        1 => Some(true),
        _ => None,
    }
}

/// Whether the bytes, up to their first zero or their end, are a prefix of a header of this limit
/// and name, and not all of it.
pub(crate) fn is_torn_header(limit: Limit, name: &Name, bytes: &[u8]) -> bool
    ensures { result ≡ is_torn_header_of limit name.now bytes.now }
{
    let found = before_zero(bytes);
    is_torn(
        found,
        &JournalHeader {
            limit,
            existed: false,
        }
        .to_bytes(name),
    ) || is_torn(
        found,
        &JournalHeader {
            limit,
            existed: true,
        }
        .to_bytes(name),
    )
}

/// Whether the bytes are a prefix of the others, and fewer.
pub(crate) fn is_torn(bytes: &[u8], whole: &[u8]) -> bool
    ensures { result ≡ is_torn_of bytes.now whole.now }
{
    bytes.len() < whole.len() && bytes == &whole[..bytes.len()]
}
