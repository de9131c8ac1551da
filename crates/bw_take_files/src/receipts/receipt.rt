//! What a receipt says.
use bw_model::Name;
use std::alloc::AllocError;

/// What a sender read of a take that is stored.
#[derive(Debug, Drop, PartialEq, Eq)]
pub struct Receipt {
    /// The name of the take.
    pub name: Name,
    /// How many whole frames its samples are.
    pub frames: u64,
    /// The SHA-256 of its samples.
    pub digest: [u8; 32],
}

/// Why a text is no file of receipts.
#[derive(Debug, Clone, Copy, PartialEq, Eq)]
pub enum ReceiptFault {
    /// The line of this number, counted from 1, is the first that is no receipt and not empty.
    Line(u64),
    /// Memory was refused.
    Memory,
}

impl From<AllocError> for ReceiptFault {
    ghost use Rattle.std.specs.Prelude.{◌≡◌};
    ghost use Rattle.bw_take_files.specs.declared.receipts.receipt.ReceiptFault.TheVariants.{Memory};

    ghost from_gives = { λ _ fault. fault ≡ Memory };

    /// `Memory`.
    fn from(_: AllocError) -> ReceiptFault {
        ReceiptFault::Memory
    }
}
