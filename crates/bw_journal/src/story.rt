//! What a journal says about a take.
ghost use Rattle.bw_journal.specs.Rows.{IsWholeTable};

use bw_take::TakeState;

/// What a journal says about a take.
#[derive(Drop)]
pub struct Replayed {
    /// The take without its data, and whether a file of its name existed.
    pub state: TakeState,
    /// The digest and the verdict's code of each number, 33 bytes each.
    pub table: Vec<u8>,
    /// How many bytes of the journal are its header and its entries.
    pub used: usize,
    /// How many bytes follow, which are to be cut off.
    pub torn: usize,
    ghost rows: { IsWholeTable state.parts table.items used },
}
