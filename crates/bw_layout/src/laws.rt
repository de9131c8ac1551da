//! Laws of the layouts: functions that do nothing, whose contracts are the statements.
ghost use Rattle.bw_layout.specs.Headers.{EachRiffHasItsSizes, EachBw64HasItsSizes};
ghost use Rattle.bw_layout.specs.ReadBack.{HeadsReadBack, FormatsReadBack, FieldsReadBack};
ghost use Rattle.bw_layout.specs.ReadBack.{EntriesReadBack, EachDs64ReadsBack, CuePointsReadBack};
ghost use Rattle.bw_layout.specs.ReadBack.{EachCueChunkReadsBack};

/// Where a header's two sizes are: headers of one take and one kind differ only there.
pub fn law_size_places()
    ensures riff { EachRiffHasItsSizes }
    ensures bw64 { EachBw64HasItsSizes }
{}

/// What the writers append is read back by the readers, whatever bytes follow.
pub fn law_read_back()
    ensures heads { HeadsReadBack }
    ensures formats { FormatsReadBack }
    ensures fields { FieldsReadBack }
    ensures entries { EntriesReadBack }
    ensures sizes { EachDs64ReadsBack }
    ensures cue_points { CuePointsReadBack }
    ensures cues { EachCueChunkReadsBack }
{}
