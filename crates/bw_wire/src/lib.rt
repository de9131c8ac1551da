//! Messages and replies as bytes: bodies, frames, and streams of frames that come in any pieces.
#![tactic(auto)]

mod address;
mod body_digests;
mod buffer;
mod decoder;
mod encoder;
mod fault;
mod frame_prefix;
mod framer;
mod framing;
mod intake;
pub mod laws;
mod message;
mod payload;
mod reason;
mod reply;
mod reply_decoder;
mod reply_encoder;
mod reply_framer;
mod reply_prefix;
mod request_text;

pub use body_digests::{HeldBody, digests_at_once};
pub use bw_digest::LANES;
pub use decoder::{decode, decode_request};
pub use encoder::{encode, encode_ask, kind, put_payload};
pub use fault::WireFault;
pub use framer::Framer;
pub use message::{Ask, Frame, Message};
pub use reason::{Reason, UnknownCode};
pub use reply::{Notice, Reply};
pub use reply_decoder::decode_reply;
pub use reply_encoder::encode_reply;
pub use reply_framer::ReplyFramer;
pub use request_text::request_from_hex;
