//! Requests are offered to a sender, as long as its window has room.
ghost use Rattle.std.specs.Prelude.{◌≡◌, ◌≢◌, ◌+◌, ◌<◌, ◌^◌, None, true, false, is_none};
ghost use Rattle.std.specs.Prelude.{IfOk, OnErr, OnOk};
ghost use Rattle.bw_model.specs.World.{offer_fault};
ghost use Rattle.bw_sender.specs.Offers.{fault_of};
ghost use Rattle.bw_upload.specs.SendState.{Sending, IsSending, is_last_offer, offer_more};
ghost use Rattle.bw_upload.specs.SendState.{offer_next as offered_next};

use crate::dispatch::Dispatch;
use bw_model::Request;
use bw_sender::OfferError;
use std::alloc::{AllocError, Global};

/// Offers copies of the requests that weren't offered yet, up to the first that is refused.
///
/// # Errors
/// `AllocError` if memory was refused.
pub(crate) fn offer_more_of(
    alloc: Global,
    dispatch: &mut Dispatch,
    requests: &[Request],
) -> Result<(), AllocError>
    ensures { (x : Sending) → IsSending x dispatch.old → x.requests ≡ requests.now →
        OnOk result (IsSending (offer_more x) dispatch.new) }
{
    while !dispatch.is_stopped && dispatch.offered < requests.len() {
        if !offer_next(alloc, dispatch, &requests[dispatch.offered])? {
            return Ok(());
        }
    }
    Ok(())
}

/// Offers a copy of a request. Returns whether it was accepted.
///
/// # Errors
/// `AllocError` if memory was refused.
fn offer_next(alloc: Global, dispatch: &mut Dispatch, request: &Request) -> Result<bool, AllocError>
    requires room { dispatch.old.offered < 2 ^ 63 }
    requires goes_on { dispatch.old.is_stopped ≡ false }
    ensures offered { (x : Sending) → IsSending x dispatch.old → IfOk result (λ taken.
        IsSending (offered_next x request.now) dispatch.new
        × (taken ≡ is_none (offer_fault x.sender request.now))) }
    ensures counted { IfOk result (λ taken. taken ≡ true →
        dispatch.new.offered ≡ dispatch.old.offered + 1) }
{
    let copy = request.as_ref().to_request(alloc)?;
    match dispatch.sender.offer(copy) {
        Ok(_number) => {
            dispatch.offered += 1;
            Ok(true)
        }
        Err((error, _request)) => {
            dispatch.is_stopped = is_last(error)?;
            Ok(false)
        }
    }
}

/// Whether nothing more is offered after this refusal.
///
/// # Errors
/// `AllocError` if memory was refused.
fn is_last(error: OfferError) -> Result<bool, AllocError>
    ensures ok { IfOk result (λ last.
        (fault_of error ≢ None) × (last ≡ is_last_offer (fault_of error))) }
    ensures err { OnErr result (error ≡ OfferError.Memory) }
{
    match error {
        OfferError::NumbersSpent => Ok(true),
        OfferError::BeforeOpen => Ok(true),
        OfferError::AfterClose => Ok(true),
        OfferError::WindowFull => Ok(false),
        OfferError::Memory => Err(AllocError),
    }
}
