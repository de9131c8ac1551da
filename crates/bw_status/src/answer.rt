//! What is answered to a request, by its parts.
ghost use Rattle.std.specs.Prelude.{◌≡◌, length, not, ◌==◌, ◌≤◌};
ghost use Rattle.std.specs.List.{prefix_len};
ghost use Rattle.bw_status.specs.Answers.{answer_for, path_content, target_content, content_for, part_for};
ghost use Rattle.bw_status.specs.Answers.{is_hosted, is_reading};

/// What a response contains.
#[derive(Clone, Copy, Debug, PartialEq, Eq)]
pub enum Content {
    /// The page.
    Page,
    /// What the page says, as JSON.
    Takes,
    /// The metrics.
    Metrics,
    /// Whether the server is well.
    Health,
    /// The bytes are no request, or it doesn't name one host.
    BadRequest,
    /// There is nothing at its target.
    NotFound,
    /// Its method is neither GET nor HEAD.
    BadMethod,
    /// Its head is too long, or has too many fields.
    TooLarge,
    /// Its version isn't HTTP/1.0 or HTTP/1.1.
    BadVersion,
}

/// How much of a response is sent.
#[derive(Clone, Copy, Debug, PartialEq, Eq)]
pub enum ResponsePart {
    /// All of it.
    Whole,
    /// Its head, as HEAD asks.
    Head,
}

/// What is answered to a request.
#[derive(Clone, Copy, Debug, PartialEq, Eq)]
pub struct Answer {
    /// What the response contains.
    pub content: Content,
    /// How much of it is sent.
    pub part: ResponsePart,
}

impl Answer {
    /// A whole response with this content.
    pub(crate) fn whole(content: Content) -> Answer
        ensures { result ≡ record { content = content; part = ResponsePart.Whole } }
    {
        Answer {
            content,
            part: ResponsePart::Whole,
        }
    }
}

/// What is answered to a request with this method and target, of this minor version of HTTP/1, with
/// so many `Host` fields.
pub(crate) fn answer_for(method: &[u8], target: &[u8], minor: u8, hosts: usize) -> Answer
    ensures { result ≡ answer_for method.now target.now minor hosts }
{
    Answer {
        content: content_for(method, target, minor, hosts),
        part: part_for(method),
    }
}

/// What its response contains.
fn content_for(method: &[u8], target: &[u8], minor: u8, hosts: usize) -> Content
    ensures { result ≡ content_for method.now target.now minor hosts }
{
    if !is_hosted(minor, hosts) {
        return Content::BadRequest;
    }
    let Some(content) = target_content(target) else {
        return Content::NotFound;
    };
    if is_reading(method) {
        content
    } else {
        Content::BadMethod
    }
}

/// Whether it names one host; under HTTP/1.0 none is named, or one.
fn is_hosted(minor: u8, hosts: usize) -> bool
    ensures { result ≡ is_hosted minor hosts }
{
    hosts == 1 || (minor == 0 && hosts == 0)
}

/// What is at a target: what is at its path. Its query, if it has one, says nothing.
fn target_content(target: &[u8]) -> Option<Content>
    ensures { result ≡ target_content target.now }
{
    path_content(&target[..path_len(target)])
}

/// How long the path of a target is, before a query.
fn path_len(target: &[u8]) -> usize
    ensures value { result ≡ prefix_len (λ c. not (c == 63)) target.now }
    ensures within { result ≤ length target.now }
{
    target.iter().take_while(|c| **c != b'?').count()
}

/// What is at a path.
fn path_content(path: &[u8]) -> Option<Content>
    ensures { result ≡ path_content path.now }
{
    if path == b"/".as_slice() {
        return Some(Content::Page);
    }
    if path == b"/takes.json".as_slice() {
        return Some(Content::Takes);
    }
    if path == b"/metrics".as_slice() {
        return Some(Content::Metrics);
    }
    if path == b"/healthz".as_slice() {
        return Some(Content::Health);
    }
    None
}

/// Whether a method is GET or HEAD.
fn is_reading(method: &[u8]) -> bool
    ensures { result ≡ is_reading method.now }
{
    method == b"GET".as_slice() || method == b"HEAD".as_slice()
}

/// How much of the response is sent.
fn part_for(method: &[u8]) -> ResponsePart
    ensures { result ≡ part_for method.now }
{
    if method == b"HEAD".as_slice() {
        ResponsePart::Head
    } else {
        ResponsePart::Whole
    }
}
