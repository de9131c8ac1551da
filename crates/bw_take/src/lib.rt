//! Takes: what is kept of a take in memory, and the judgement of a request on it.
#![tactic(auto)]

mod judgement;
mod state;

pub use bw_model::{
    LONGEST_BLOCK, LONGEST_HISTORY, LONGEST_VALUE, Name, Request, RequestRef, UnknownVerdict,
    Verdict,
};
pub use judgement::judge;
pub use state::TakeState;
