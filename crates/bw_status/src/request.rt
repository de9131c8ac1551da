//! Reading a request, which may have come in part.
ghost use Rattle.std.specs.Prelude.{◌≡◌, ◌≤◌, ℕ, List, Some, length, map, All};
ghost use Rattle.httparse.specs.Grammar.{RequestHead, ReadsRequest};
ghost use Rattle.httparse.specs.Spans.{IsHeaderWithin, IsRequestAt, IsRequestWithin, header_bytes};
ghost use Rattle.bw_status.specs.Answers.{AnswersRequest, request_answer, error_content};
ghost use Rattle.bw_status.specs.Answers.{host_count, is_host, most_fields};
ghost use Rattle.bw_status.specs.Answers.{part_answer};

use crate::answer::{Answer, Content, answer_for};
use httparse::spans::{EMPTY_HEADER_SPAN, HeaderSpan, RequestSpans, parse_request};
use httparse::{Error, Status};

/// The most bytes that are held of a request: it is answered by then.
pub const LONGEST_REQUEST: usize = 8192;

/// The most fields of a request's head.
const MOST_FIELDS: usize = 64;

/// What is answered to the bytes that have come so far; `None` while more are waited for.
///
/// # Not specified
/// Which of `BadRequest` and `BadVersion` is answered to bytes that never become a request.
pub fn answer_to(held: &[u8]) -> Option<Answer>
    // Bytes are waited for only where some could still make a request, and fewer than 8,192 came.
    ensures answers { AnswersRequest held.now result }
    // A request of at most 64 fields is answered by its target, method, version and hosts.
    ensures whole { (h : RequestHead) (rest : List ℕ) → ReadsRequest held.now h rest →
        length h.fields ≤ most_fields → result ≡ Some (request_answer h) }
{
    let mut fields = [EMPTY_HEADER_SPAN; MOST_FIELDS];
    match parse_request(held, &mut fields) {
        Ok(Status::Complete(head)) => Some(answer_in(held, head, &fields)),
        Ok(Status::Partial) => answer_to_part(held.len()),
        Err(error) => Some(Answer::whole(content_of(error))),
    }
}

/// What is answered to so many bytes that may become a request.
fn answer_to_part(count: usize) -> Option<Answer>
    ensures { result ≡ part_answer count }
{
    if count < LONGEST_REQUEST {
        None
    } else {
        Some(Answer::whole(Content::TooLarge))
    }
}

/// What is answered to bytes that are no request.
fn content_of(error: Error) -> Content
    ensures { result ≡ error_content error }
{
    match error {
        Error::TooManyHeaders => Content::TooLarge,
        Error::Version => Content::BadVersion,
        Error::HeaderName | Error::HeaderValue | Error::NewLine | Error::Status | Error::Token =>
            Content::BadRequest,
    }
}

/// What is answered to a whole request, whose parts are at these spans.
fn answer_in(held: &[u8], head: RequestSpans, fields: &[HeaderSpan]) -> Answer
    requires { IsRequestWithin held.now fields.now head }
    ensures { (h : RequestHead) → IsRequestAt held.now fields.now head h → result ≡ request_answer h }
{
    let hosts = host_count(held, head.len, &fields[..head.headers]);
    answer_for(
        head.method.of(held),
        head.path.of(held),
        head.version,
        hosts,
    )
}

/// How many of these fields, in the first `len` bytes, name a host.
fn host_count(held: &[u8], len: usize, fields: &[HeaderSpan]) -> usize
    requires len { len ≤ length held.now }
    requires within { All (IsHeaderWithin len) fields.now }
    ensures { result ≡ host_count (map (header_bytes held.now) fields.now) }
{
    let mut count = 0;
    for field in fields {
        if is_host(field.name.of(held)) {
            count += 1;
        }
    }
    count
}

/// Whether a field's name is `Host`, in letters of either case.
fn is_host(name: &[u8]) -> bool
    ensures { result ≡ is_host name.now }
{
    name.eq_ignore_ascii_case(b"host")
}
