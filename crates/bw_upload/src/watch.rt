//! A sender's progress after each round, for whoever watches it.
ghost use Rattle.std.specs.Prelude.{◌≡◌, ◌≤◌, ◌+◌, ◌++◌, decimal, length};
ghost use Rattle.bw_model.specs.World.{Sender as Defined, settled as settled_of};
ghost use Rattle.bw_model.specs.World.{stored as stored_of};
ghost use Rattle.bw_model.specs.Requests.{samples_in};
ghost use Rattle.bw_sender.specs.Senders.{IsSender};
ghost use Rattle.bw_console.specs.Prints.{IsOf, IsPrint, Print};
ghost use Rattle.bw_upload.specs.RoundCounts.{counted_bytes, round_counts_line, progress_line};
ghost use Rattle.bw_upload.specs.RoundCounts.{settled_bytes};

use arrayvec::ArrayString;
use bw_console::print::print_diagnostic;
use bw_model::{Request, RequestRef};
use bw_ports::ProgressReport;
use bw_sender::Sender;
use bw_stream::Sink;
use itoa::Buffer;

/// A sender's progress with the requests of an input, after a round.
#[derive(Clone, Copy)]
pub struct Progress<'a> {
    round: u32,
    sender: &'a Sender,
    requests: &'a [Request],
}

impl<'a> Progress<'a> {
    ghost use Rattle.bw_upload.specs.WatchedSenders.{watched_round, watched_sender, watched_requests};

    pub(crate) fn new(round: u32, sender: &'a Sender, requests: &'a [Request]) -> Progress<'a>
        ensures round { watched_round result ≡ round }
        ensures sender { watched_sender result ≡ sender.now }
        ensures requests { watched_requests result ≡ requests.now }
    {
        Progress {
            round,
            sender,
            requests,
        }
    }

    /// The round's number, counted from 1.
    pub fn round(&self) -> u32
        ensures { result ≡ watched_round self.now }
    {
        self.round
    }

    /// How many requests have their verdicts, up to the first that has none.
    pub fn settled(&self) -> u32
        ensures { (s : Defined) → IsSender s (watched_sender self.now) → result ≡ settled_of s }
    {
        self.sender.settled()
    }

    /// How many of the settled requests are stored.
    pub fn stored(&self) -> u32
        ensures { (s : Defined) → IsSender s (watched_sender self.now) → result ≡ stored_of s }
    {
        self.sender.stored()
    }

    /// The bytes of samples in the settled requests, which are the first of the input; 2^64 - 1 if
    /// there are more. They are summed by this call.
    pub fn bytes(&self) -> u64
        ensures { (s : Defined) → IsSender s (watched_sender self.now) →
            result ≡ settled_bytes s (watched_requests self.now) }
    {
        let settled = (self.settled() as usize).min(self.requests.len());
        counted_bytes(&self.requests[..settled])
    }

    /// Writes it as a line. It allocates nothing.
    pub fn print_diagnostic<E: Sink>(&self, out: &mut E)
        ensures { (s : Defined) → IsSender s (watched_sender self.now) → (print : Print)
            × IsOf (progress_line (watched_round self.now) s (watched_requests self.now)) print
            × IsPrint E.Sink print out.old out.new }
    {
        print_diagnostic(out, self.line().as_str().as_bytes());
    }

    fn line(&self) -> ArrayString<128>
        ensures { (s : Defined) → IsSender s (watched_sender self.now) →
            result.bytes ≡ progress_line (watched_round self.now) s (watched_requests self.now) }
    {
        line_of(self.round, self.settled(), self.stored(), self.bytes())
    }
}

impl ProgressReport for Progress<'_> {
    fn round(&self) -> u32 {
        Progress::round(self)
    }

    fn settled(&self) -> u32 {
        Progress::settled(self)
    }

    fn stored(&self) -> u32 {
        Progress::stored(self)
    }

    fn bytes(&self) -> u64 {
        Progress::bytes(self)
    }

    fn print_diagnostic<E: Sink>(&self, out: &mut E) {
        Progress::print_diagnostic(self, out);
    }
}

fn line_of(round: u32, settled: u32, stored: u32, bytes: u64) -> ArrayString<128>
    ensures { result.bytes ≡ round_counts_line round settled stored bytes }
{
    let mut line = ArrayString::new();
    put_count(&mut line, "round ", u64::from(round));
    put_count(&mut line, " settled ", u64::from(settled));
    put_count(&mut line, " stored ", u64::from(stored));
    put_count(&mut line, " bytes ", bytes);
    line.push_str("\n");
    line
}

/// Adds a count after its name.
fn put_count(line: &mut ArrayString<128>, name: &str, count: u64)
    requires { length line.old.bytes + length name.now ≤ 100 }
    ensures text { line.new.bytes ≡ line.old.bytes ++ name.now ++ decimal count }
    ensures short { length line.new.bytes ≤ length line.old.bytes + length name.now + 20 }
{
    line.push_str(name);
    line.push_str(Buffer::new().format(count));
}

/// The bytes of samples in these requests; 2^64 - 1 if there are more.
fn counted_bytes(requests: &[Request]) -> u64
    ensures { result ≡ counted_bytes requests.now }
{
    let mut bytes: u64 = 0;
    for request in requests {
        bytes = bytes.saturating_add(samples_len(request));
    }
    bytes
}

/// How many bytes of samples a request has.
fn samples_len(request: &Request) -> u64
    ensures { result ≡ samples_in request.now }
{
    match request.as_ref() {
        RequestRef::Block { bytes } => bytes.len() as u64,
        _ => 0,
    }
}
