//! What a response contains, its status and its type.
ghost use Rattle.std.specs.Prelude.{◌≡◌, ◌++◌, OnOk};
ghost use Rattle.bw_status.specs.Responses.{line_text, response_body, health_status};
ghost use Rattle.bw_status.specs.Responses.{response_status, type_of};

use crate::answer::Content;
use crate::json::snapshot_json;
use crate::metrics::put_metrics;
use crate::page::put_page;
use crate::snapshot::{Health, Snapshot, health_text};
use std::alloc::{AllocError, Global};

/// Appends what a response contains.
pub(crate) fn put_body(
    alloc: Global,
    out: &mut Vec<u8>,
    content: Content,
    snapshot: &Snapshot,
) -> Result<(), AllocError>
    ensures { OnOk result (out.new.items ≡ out.old.items ++ response_body content snapshot.now) }
{
    match content {
        Content::Page => put_page(alloc, out, snapshot),
        Content::Takes => put_json(alloc, out, snapshot),
        Content::Metrics => put_metrics(out, snapshot),
        Content::Health => put_line(out, health_text(snapshot.health)),
        Content::BadRequest => put_line(out, "400 Bad Request"),
        Content::NotFound => put_line(out, "404 Not Found"),
        Content::BadMethod => put_line(out, "405 Method Not Allowed"),
        Content::TooLarge => put_line(out, "431 Request Header Fields Too Large"),
        Content::BadVersion => put_line(out, "505 HTTP Version Not Supported"),
    }
}

/// Appends a text and a line feed.
#[tactic(auto, using(std::proofs::lemmas::List::append_assoc))]
fn put_line(out: &mut Vec<u8>, text: &str) -> Result<(), AllocError>
    ensures { OnOk result (out.new.items ≡ out.old.items ++ line_text text.now) }
{
    out.extend_from_slice(text.as_bytes())?;
    out.extend_from_slice(b"\n")
}

/// Appends the snapshot as a line of JSON.
fn put_json(alloc: Global, out: &mut Vec<u8>, snapshot: &Snapshot) -> Result<(), AllocError>
    ensures { OnOk result (out.new.items ≡ out.old.items ++ response_body Content.Takes snapshot.now) }
{
    let text = snapshot_json(alloc, snapshot)?;
    put_line(out, text.as_str())
}

/// The status of a response.
pub(crate) fn response_status(content: Content, health: Health) -> &'static str
    ensures { result.now ≡ response_status content health }
{
    match content {
        Content::Page => "200 OK",
        Content::Takes => "200 OK",
        Content::Metrics => "200 OK",
        Content::Health => health_status(health),
        Content::BadRequest => "400 Bad Request",
        Content::NotFound => "404 Not Found",
        Content::BadMethod => "405 Method Not Allowed",
        Content::TooLarge => "431 Request Header Fields Too Large",
        Content::BadVersion => "505 HTTP Version Not Supported",
    }
}

/// The status of a response that says whether the server is well.
fn health_status(health: Health) -> &'static str
    ensures { result.now ≡ health_status health }
{
    match health {
        Health::Ready => "200 OK",
        Health::Folder => "503 Service Unavailable",
        Health::Store => "503 Service Unavailable",
        Health::Full => "503 Service Unavailable",
    }
}

/// The type of what a response contains.
pub(crate) fn type_of(content: Content) -> &'static str
    ensures { result.now ≡ type_of content }
{
    match content {
        Content::Page => "text/html; charset=utf-8",
        Content::Takes => "application/json",
        Content::Metrics => "text/plain; version=0.0.4; charset=utf-8",
        Content::Health => "text/plain; charset=utf-8",
        Content::BadRequest => "text/plain; charset=utf-8",
        Content::NotFound => "text/plain; charset=utf-8",
        Content::BadMethod => "text/plain; charset=utf-8",
        Content::TooLarge => "text/plain; charset=utf-8",
        Content::BadVersion => "text/plain; charset=utf-8",
    }
}
