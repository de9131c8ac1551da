//! What a server that resumes is given of a name.
ghost use Rattle.std.specs.Prelude.{◌≡◌, ◌≤◌, ◌+◌, ◌*◌, IfSome, IsSome, length};
ghost use Rattle.bw_model.specs.Wire.{Second, last_number};

use bw_journal::Replayed;
use bw_model::Name;

/// What a server that resumes is given of a name of which a number is done.
#[derive(Drop)]
pub struct KeptTake {
    /// The name.
    pub name: Name,
    /// What its journal says.
    pub replayed: Replayed,
    /// Whether a file of the name is there, and is the server's.
    pub made: bool,
    ghost numbers: { length replayed.table.items ≤ 33 * (last_number Second + 1) },
}

impl KeptTake {
    /// What a journal says of a name, and whether its file is there and the server's; None if more
    /// numbers are done than messages can have, 2^24.
    pub fn new(name: Name, replayed: Replayed, made: bool) -> Option<KeptTake>
        ensures some { length replayed.table.items ≤ 33 * (last_number Second + 1) → IsSome result }
        ensures name { IfSome result (λ k. k.name ≡ name) }
        ensures replayed { IfSome result (λ k. k.replayed ≡ replayed) }
        ensures made { IfSome result (λ k. k.made ≡ made) }
    {
        if replayed.table.len() > 33 << 24 {
            return None;
        }
        Some(KeptTake {
            name,
            replayed,
            made,
        })
    }
}
