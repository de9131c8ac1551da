//! The laws of the definitions that rehearsals are based on.
ghost use Rattle.bw_model.specs.World.{EachWorldIsFaithful, FaithfulWorldsHaveNoGap};
ghost use Rattle.bw_commands.specs.FaultRuns.{UnreportedFaultsAreNone};
ghost use Rattle.bw_commands.specs.RehearsedWorlds.{QuietRehearsalsHaveOneWorld};

/// Whatever is lost, repeated or reordered, the sender counts only what the server's take has.
pub fn law_world()
    // So it is with other recorders and faults too.
    ensures faithful { EachWorldIsFaithful }
    // No number has TooFar or Conflict, and none is missing before a done one.
    ensures gapless { FaithfulWorldsHaveNoGap }
{
    bw_model::law_world();
}

/// A fault that is reported nowhere didn't happen: a rehearsal in which no call of the store
/// failed, and no reply reports lack of memory, has just one world.
pub fn law_faults()
    ensures unreported { UnreportedFaultsAreNone }
    ensures one { QuietRehearsalsHaveOneWorld }
{}
