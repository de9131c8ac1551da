//! Frames that were read: messages, asks, and the end of an exchange.
ghost use Rattle.std.specs.Prelude.{◌≡◌, ◌≤◌, IsTrue, length};
ghost use Rattle.std.specs.Option.{ForSome};
ghost use Rattle.sha2.specs.Sha256.{sha256};
ghost use Rattle.bw_model.specs.Wire.{Second, last_number};
ghost use Rattle.bw_wire.specs.Bodies.{is_message_body, is_ask_body, IsAddressedBody, body_name, body_number};

use crate::address::{after_kind, name, number, payload};
use crate::payload::request_of;
use bw_model::{Name, RequestRef};
use sha2::{Digest, Sha256};

/// A message: a name, a number, and a request on the take of that name. It borrows its body.
#[derive(Clone, Copy, Debug)]
pub struct Message<'a> {
    pub(crate) body: &'a [u8],
    /// The digest of the body, if it was hashed before.
    pub(crate) digest: Option<[u8; 32]>,
    ghost spells: { IsTrue (is_message_body body.now) },
    ghost hashed: { ForSome digest (λ d. d ≡ sha256 body.now) },
}

impl<'a> Message<'a> {
    ghost use Rattle.bw_model.specs.Wire.{Says, Spells, is_request};
    ghost use Rattle.bw_model.specs.Stream.{longest_body};
    ghost use Rattle.bw_model.specs.Wire.{message_body};
    ghost use Rattle.bw_model.specs.Requests.{meaning};
    ghost use Rattle.bw_wire.specs.Frames.{message_of};

    /// The name of the take.
    pub fn name(&self) -> Name
        ensures { result ≡ (message_of self.now).name }
    {
        body_name(self.body)
    }

    /// The number of the message among those of its name, at most 16,777,215.
    pub fn number(&self) -> u32
        ensures value { result ≡ (message_of self.now).number }
        ensures range { result ≤ last_number Second }
    {
        body_number(self.body)
    }

    /// The request, which borrows from the body.
    pub fn request(&self) -> RequestRef<'a>
        ensures value { meaning result ≡ (message_of self.now).request }
        ensures fits { IsTrue (is_request (meaning result)) }
    {
        request_of(self.body[0], payload(after_kind(self.body)))
    }

    /// The whole body, from its kind on, at most 32,806 bytes.
    pub fn body(&self) -> &'a [u8]
        ensures spelled { Spells Second result.now (Says (message_of self.now)) }
        ensures length { length result.now ≤ longest_body }
    {
        self.body
    }

    /// The SHA-256 digest (FIPS 180-4) of the whole body. It is computed here, unless the framer
    /// that gave the message had computed it.
    pub fn digest(&self) -> [u8; 32]
        ensures { result ≡ sha256 (message_body (message_of self.now)) }
    {
        match self.digest {
            Some(digest) => digest,
            None => Sha256::digest(self.body),
        }
    }
}

/// A recorder's question which number comes next under a name. It borrows its body.
#[derive(Clone, Copy, Debug)]
pub struct Ask<'a> {
    pub(crate) body: &'a [u8],
    ghost spells: { IsTrue (is_ask_body body.now) },
}

impl Ask<'_> {
    ghost use Rattle.bw_wire.specs.Frames.{asked_name, asked_number};

    /// The name that the ask is about.
    pub fn name(&self) -> Name
        ensures { result ≡ asked_name self.now }
    {
        body_name(self.body)
    }

    /// The number that the reply repeats, at most 16,777,215.
    pub fn number(&self) -> u32
        ensures value { result ≡ asked_number self.now }
        ensures range { result ≤ last_number Second }
    {
        body_number(self.body)
    }
}

/// What a body spells.
#[derive(Clone, Copy, Debug)]
pub enum Frame<'a> {
    /// A message.
    Message(Message<'a>),
    /// An ask.
    Ask(Ask<'a>),
    /// The end of the exchange.
    Bye,
}

/// The name in a body that spells a message or an ask.
fn body_name(body: &[u8]) -> Name
    requires { IsAddressedBody body.now }
    ensures { result ≡ body_name body.now }
{
    name(after_kind(body))
}

/// The number in such a body, at most 16,777,215.
fn body_number(body: &[u8]) -> u32
    requires { IsAddressedBody body.now }
    ensures value { result ≡ body_number body.now }
    ensures range { result ≤ last_number Second }
{
    number(after_kind(body))
}
