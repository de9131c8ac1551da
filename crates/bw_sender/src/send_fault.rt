//! Why an exchange of a sender breaks off.
ghost use Rattle.std.specs.Prelude.{◌≡◌, ◌≤◌};
ghost use Rattle.bw_sender.specs.SendFaults.{send_fault_number};

/// Why a sender's exchange broke off.
#[derive(Clone, Copy, Debug, PartialEq, Eq)]
pub enum SendFault {
    /// The reader failed.
    Read = 1,
    /// The writer failed.
    Write = 2,
    /// Memory was refused.
    Memory = 3,
    /// Bytes came that are no reply's frame, or the input ended inside one.
    BadReply = 4,
    /// 2^32 reads were not enough.
    TurnLimit = 5,
}

impl SendFault {
    /// Its number, 1 to 5.
    pub fn code(self) -> u8
        ensures value { result ≡ send_fault_number self }
        ensures range { result ≤ 5 }
    {
        self as u8
    }
}
