//! Laws of readings and their reports: a function that does nothing, whose contract is the
//! statements.
ghost use Rattle.bw_model.specs.ReadBack.{FilesReadBack, MadeFilesReadBack};
ghost use Rattle.bw_inspect.specs.Laws.{FilesAreReported, MadeFilesAreReported};

/// A take's file reads as the chunks of its layout, and the report of that reading gives the take:
/// its fields, its sizes and, if it is closed, its markers. So `inspect` returns that report or
/// none, for each take within the limits of the formats, and so for each that admitted requests
/// make.
pub fn law_file_reads()
    ensures within_limits { FilesReadBack }
    ensures made { MadeFilesReadBack }
    ensures reported { FilesAreReported }
    ensures made_reported { MadeFilesAreReported }
{}
