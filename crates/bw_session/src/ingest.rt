//! Runs over memory: each input served as an exchange, one after another, over one store.
ghost use Rattle.std.specs.Prelude.{◌≡◌, IsTrue, IfOk, OnErr, IfErr, MatchResult};
ghost use Rattle.bw_session.specs.IngestRuns.{ServesInput, ServesFirst, ServesInputs, ServesInPart};
ghost use Rattle.bw_session.specs.IngestRuns.{Ingests, IngestsInPart, GoWell, RunsAsDefined};
ghost use Rattle.bw_session.specs.IngestRuns.{input_bytes};

use crate::server::Server;
use bw_exchange::{ExchangeEnd, Turns, serve_exchange};
use bw_journal::{Journal, NoJournal};
use bw_layout::Limit;
use bw_store::TakeStore;
use bw_stream::{MemorySink, MemorySource};
use std::alloc::{AllocError, AllocFailed, Global};
use thiserror::Error;

/// What a run leaves: for each input the bytes of its replies and its end, and the store.
#[derive(Drop)]
pub struct Run<S: TakeStore> {
    /// The bytes of the replies to each input.
    pub replies: Vec<Vec<u8>>,
    /// How the exchange of each input ended.
    pub ends: Vec<ExchangeEnd>,
    /// The store, as the run leaves it.
    pub store: S,
}

/// Why a run stopped.
///
/// No clause describes its text.
#[derive(Clone, Copy, Debug, PartialEq, Eq, Hash, Error)]
pub enum RunFault {
    /// Memory was refused.
    #[error("out of memory")]
    Memory = 1,
}

impl RunFault {
    /// Its number, 1.
    pub fn code(self) -> u8
        ensures { result ≡ 1 }
    {
        self as u8
    }
}

impl From<AllocError> for RunFault {
    ghost from_gives = { λ _ _. Unit {0} };

    /// `Memory`, the only one.
    fn from(_: AllocError) -> RunFault {
        RunFault::Memory
    }
}

impl<T: Drop> From<AllocFailed<T>> for RunFault {
    ghost from_gives = { λ _ _. Unit {0} };

    /// `Memory`, the only one.
    fn from(_: AllocFailed<T>) -> RunFault {
        RunFault::Memory
    }
}

/// What the exchanges reported.
#[derive(Drop)]
struct Reported {
    replies: Vec<Vec<u8>>,
    ends: Vec<ExchangeEnd>,
}

/// Serves each input as an exchange, one after another, starting with an empty server over the
/// store.
///
/// Any store comes back from the server that took it, and was asked only what the turns ask.
///
/// # Errors
/// `Memory`, with the store, if memory was refused: some of the inputs were served, and some first
/// frames of the next. Their replies are lost.
///
/// # Not specified
/// - When memory is refused, and at which input.
/// - What a dishonest store has afterwards.
pub fn ingest_run<S: TakeStore>(
    alloc: Global,
    store: S,
    limit: Limit,
    inputs: &[Vec<u8>],
) -> Result<Run<S>, (RunFault, S)>
    ensures honest { MatchResult result (λ run. S.honest run.store ≡ S.honest store)
        (λ e. S.honest e.1 ≡ S.honest store) }
    // The inputs are answered whole, in one run; each settled name has its file.
    ensures ok { IfOk result (λ run.
        Ingests S.TakeStore ⟦<NoJournal as Journal>⟧ limit store (input_bytes inputs.now) run) }
    // Numbers in order, without failures: one result for limit, inputs and store.
    ensures in_order { IsTrue (S.honest store) → IfOk result (λ run.
        GoWell (input_bytes inputs.now) (input_bytes run.replies.items) →
        RunsAsDefined S.TakeStore limit store (input_bytes inputs.now) run) }
    // The store is as the first of the frames leave it.
    ensures err { IfErr result (λ e.
        IngestsInPart S.TakeStore ⟦<NoJournal as Journal>⟧ limit store (input_bytes inputs.now) e.1) }
{
    let mut server = match Server::new(alloc, store, limit) {
        Ok(server) => server,
        Err((_error, store)) => return Err((RunFault::Memory, store)),
    };
    match serve_inputs(alloc, &mut server, inputs) {
        Ok(reported) => {
            let Reported { replies, ends } = reported;
            let store = server.into_store();
            Ok(Run {
                replies,
                ends,
                store,
            })
        }
        Err(fault) => Err((fault, server.into_store())),
    }
}

/// Serves each input as an exchange.
///
/// # Errors
/// `Memory` if memory was refused.
fn serve_inputs<T: Turns>(
    alloc: Global,
    server: &mut T,
    inputs: &[Vec<u8>],
) -> Result<Reported, RunFault>
    ensures ok { IfOk result (λ reported.
        ServesInputs T.answers server.old server.new (input_bytes inputs.now) reported) }
    ensures err { OnErr result
        (ServesInPart T.answers server.old server.new (input_bytes inputs.now)) }
{
    let mut reported = Reported {
        replies: Vec::new(alloc),
        ends: Vec::new(alloc),
    };
    for input in inputs {
        let (replies, end) = serve_input(alloc, server, input.as_slice())?;
        reported.replies.push(replies)?;
        reported.ends.push(end)?;
    }
    Ok(reported)
}

/// Serves an input as an exchange.
///
/// # Errors
/// `Memory` if memory was refused.
fn serve_input<T: Turns>(
    alloc: Global,
    server: &mut T,
    input: &[u8],
) -> Result<(Vec<u8>, ExchangeEnd), RunFault>
    ensures ok { IfOk result (λ reported. ServesInput T.answers server.old server.new
        input.now reported.0.items reported.1) }
    ensures err { OnErr result (ServesFirst T.answers server.old server.new input.now) }
{
    let mut reader = MemorySource::new(input);
    let mut writer = MemorySink::new(Vec::new(alloc));
    match serve_exchange(alloc, server, &mut reader, &mut writer) {
        ExchangeEnd::Memory | ExchangeEnd::WriteFault => Err(RunFault::Memory),
        // Only for lack of memory can a server not commit whose store and sink are in memory.
        ExchangeEnd::NotKept(_cause) => Err(RunFault::Memory),
        end => Ok((writer.into_bytes(), end)),
    }
}
