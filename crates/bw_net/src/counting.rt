//! The count of the calls of the system that failed.
ghost use Rattle.std.specs.Prelude.{◌≡◌};
ghost use Rattle.bw_stream.specs.Moves.{failures_after};

/// What a call gave. If it failed, that is one failure more.
pub(crate) fn counted<T, E>(given: Result<T, E>, failures: &mut u64) -> Result<T, E>
    ensures given { result ≡ given }
    ensures count { failures.new ≡ failures_after given failures.old }
{
    if given.is_err() {
        *failures = failures.saturating_add(1);
    }
    given
}
