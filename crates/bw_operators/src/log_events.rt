//! What happens to a take in a turn.
ghost use Rattle.std.specs.Prelude.{◌≡◌};
ghost use Rattle.bw_operators.specs.Events.{comes_about};

/// Whether a take was opened, or closed, in a turn: it `is` so after it and wasn't before. If its name
/// wasn't `known` to the table before, it is so only if the turn's own message `asked` for it.
pub fn comes_about(known: bool, was: bool, is: bool, asked: bool) -> bool
    ensures { result ≡ comes_about known was is asked }
{
    is && !was && (known || asked)
}
