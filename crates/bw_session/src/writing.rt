//! What a request asks of the file of its take.
ghost use Rattle.std.specs.Prelude.{◌≡◌, ◌+◌, ◌≤◌, IsTrue, true, false, is_err, OnOk, OnErr};
ghost use Rattle.bw_model.specs.Take.{Stored, judge};
ghost use Rattle.bw_model.specs.Limits.{largest};
ghost use Rattle.bw_model.specs.Wire.{is_request};
ghost use Rattle.bw_model.specs.Requests.{meaning};
ghost use Rattle.bw_model.specs.Requests.{samples_in};
ghost use Rattle.bw_store.specs.Stores.{Counts, KeepsOthers};
ghost use Rattle.bw_store.specs.StoreSteps.{WasAsked, WasAskedFirst};
ghost use Rattle.bw_session.specs.RequestWrites.{is_mark, request_plan, Knows, WritesRequest};

use bw_file::GrowingFile;
use bw_layout::Fmt;
use bw_model::RequestRef;
use bw_store::{Created, StoreFault, TakeStore};
use bw_take::TakeState;

/// Writes a request that is to be stored to the file; `Exists` if it would open a take whose name
/// already existed in the store. A marker waits in memory for the take's end.
///
/// # Errors
/// `StoreFault` if a call of the store failed: the same request may be written again.
pub(crate) fn write_request<S: TakeStore>(
    store: &mut S,
    growing: &mut GrowingFile,
    state: &TakeState,
    request: &RequestRef<'_>,
) -> Result<Created, StoreFault>
    requires fits { IsTrue (is_request (meaning request.now)) }
    requires stored { judge state.now.parts (meaning request.now) ≡ Stored }
    requires samples { state.now.parts.samples_len + samples_in (meaning request.now) ≤ largest }
    requires dirty { IsTrue growing.old.dirty → is_mark (meaning request.now) ≡ false }
    ensures failures { Counts (S.failures store.old) (S.failures store.new) (is_err result) }
    ensures calls { S.calls store.new ≤ S.calls store.old + 4 }
    ensures order { OnOk result (WasAsked S.TakeStore (request_plan growing.old state.now.parts
        (meaning request.now) growing.new.made) store.old store.new) }
    ensures begun { OnErr result (WasAskedFirst S.TakeStore (request_plan growing.old
        state.now.parts (meaning request.now) true) store.old store.new) }
    ensures honest { S.honest store.new ≡ S.honest store.old }
    ensures folder { S.folder store.new ≡ S.folder store.old }
    ensures others { IsTrue (S.honest store.old) →
        KeepsOthers (S.contents store.old) (S.contents store.new) growing.old.name }
    ensures known { Knows result (meaning request.now) growing.old growing.new }
    ensures file { IsTrue (S.honest store.old) →
        WritesRequest result (meaning request.now) state.now.parts growing.old growing.new
        (S.contents store.old growing.old.name) (S.contents store.new growing.old.name) }
{
    match *request {
        RequestRef::OpenTake {
            rate,
            channels,
            bits,
            history,
        } => {
            let format = Fmt::new(rate, channels, bits).unwrap();
            growing.begin(store, state, format, history)
        }
        RequestRef::Block { bytes } => {
            growing.append(store, state, bytes)?;
            Ok(Created::New)
        }
        RequestRef::Mark { .. } => Ok(Created::New),
        RequestRef::SetField { tag, value } => {
            let mut bext = state.bext().copy();
            bext.set(tag, value).unwrap();
            growing.retouch(store, state, &bext)?;
            Ok(Created::New)
        }
        RequestRef::CloseTake { .. } => {
            growing.close(store, state)?;
            Ok(Created::New)
        }
    }
}
