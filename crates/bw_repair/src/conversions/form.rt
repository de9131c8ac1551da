//! The forms whose sizes have 64 bits.
ghost use Rattle.std.specs.Prelude.{◌≡◌};
ghost use Rattle.bw_repair.specs.Forms.{id_of, other_of};

/// A form with a `ds64` chunk.
#[derive(Clone, Copy, Debug, PartialEq, Eq)]
pub enum WideForm {
    /// EBU Tech 3306.
    Rf64,
    /// ITU-R BS.2088.
    Bw64,
}

impl WideForm {
    /// The four bytes with which its files begin.
    pub fn id(self) -> [u8; 4]
        ensures { result ≡ id_of self }
    {
        match self {
            WideForm::Rf64 => *b"RF64",
            WideForm::Bw64 => *b"BW64",
        }
    }

    /// The other form.
    pub(crate) fn other(self) -> WideForm
        ensures { result ≡ other_of self }
    {
        match self {
            WideForm::Rf64 => WideForm::Bw64,
            WideForm::Bw64 => WideForm::Rf64,
        }
    }
}
