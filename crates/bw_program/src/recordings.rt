//! The commands on recordings, as a command line asks for them.
ghost use Rattle.std.specs.Prelude.{◌≡◌};
ghost use Rattle.bw_program.specs.RecordingCommands.{IsRecordingFile, Packs};
ghost use Rattle.bw_program.specs.RecordingCommands.{strictness_of as strictness_asked};

use bw_args::SourceFile;
use bw_console::Exit;
use bw_plan::Strictness;
use bw_ports::RecordingFiles;
use bw_recorder::{RecordingFile, pack};
use bw_stream::Sink;
use std::alloc::Global;

/// Prints the requests of the recording that the command line names.
pub(crate) fn pack_as<F: RecordingFiles, W: Sink, E: Sink>(
    alloc: Global,
    source: &SourceFile,
    files: &mut F,
    out: &mut W,
    faults: &mut E,
) -> Exit
    ensures { Packs W.Sink E.Sink (F.file_at files.old) source.now result (F.failures files.old)
        (F.failures files.new) out.old out.new faults.old faults.new }
{
    pack(alloc, files, &recording_of(source), out, faults)
}

/// The recording's file that the command line names.
pub(crate) fn recording_of(source: &SourceFile) -> RecordingFile<'_>
    ensures { IsRecordingFile source.now result }
{
    RecordingFile {
        path: source.path.as_str(),
        settings: source.settings.as_slice(),
        strict: strictness_of(source),
        frames: None,
    }
}

/// What the recording may not lose: nothing at all, if both is asked for.
pub(crate) fn strictness_of(source: &SourceFile) -> Strictness
    ensures { result ≡ strictness_asked source.now }
{
    if source.strict {
        Strictness::Full
    } else if source.strict_texts {
        Strictness::Texts
    } else {
        Strictness::Lenient
    }
}
