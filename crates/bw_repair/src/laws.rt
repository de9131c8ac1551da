//! Laws of repairs and conversions: functions that do nothing, whose contracts are the statements.
ghost use Rattle.bw_repair.specs.ConvertLaws.{LeftoversAreUnread};
ghost use Rattle.bw_repair.specs.Decisions.{DecidedSizesStay};
ghost use Rattle.bw_repair.specs.JoinLaws.{JoinedFilesHaveBoth, JoinedFilesRead};
ghost use Rattle.bw_repair.specs.RepairedFiles.{SizesAloneChange};

/// A file with other sizes is as long, and has the same bytes but for the two sizes.
pub fn law_sizes()
    ensures alone { SizesAloneChange }
{}

/// A file that has got the sizes that were decided for it keeps them.
pub fn law_settled()
    ensures settled { DecidedSizesStay }
{}

/// What a conversion leaves that fails or is killed isn't read as a file, unless it is whole.
pub fn law_leftovers()
    ensures unread { LeftoversAreUnread }
{}

/// A take with joined chunks has its own as they were and then the others, and is read so, with the same
/// samples.
pub fn law_joined()
    ensures both { JoinedFilesHaveBoth }
    ensures read { JoinedFilesRead }
{}
