//! Laws of exchanges. Each function's contract is one; nothing runs.
ghost use Rattle.bw_exchange.specs.Done.{ExchangesFollowStreams};
ghost use Rattle.bw_exchange.specs.TurnRuns.{OrderHoldsUnderFaults, TurnsAreRuns};

/// Whatever was fed and taken so far, the answered frames are the first of the stream of the bytes
/// fed, and all of them if the exchange wants to read or is over; the bytes that were taken and
/// those that wait are exactly their replies.
pub fn law_exchange()
    // BYE or a bad frame ends every longer input in the same way.
    ensures { ExchangesFollowStreams }
{
    bw_wire::laws::law_framer();
}

/// Turns one after another are a run of the definitions, with some faults at each; and if the
/// frames come in number order and no failure is reported, replies and book depend on no fault.
pub fn law_runs()
    ensures runs { TurnsAreRuns }
    ensures in_order { OrderHoldsUnderFaults }
{}
