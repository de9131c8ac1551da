//! What the server's file of a recording is read as. Each function's contract is a law; nothing
//! runs.
//! Not stated: `--state`; what other programs read.
ghost use Rattle.bw_end_to_end.specs.Copies.{CleansOnce, CopiesAreEqual, PcmCopiesAreEqual};
ghost use Rattle.bw_end_to_end.specs.Copies.{PcmRecordingsAreCopied, RecordingsAreCopied, RequestsFit};
ghost use Rattle.bw_end_to_end.specs.ExamplesOfCopies.{CleanedCopyExample, ExtensibleCopyExample};
ghost use Rattle.bw_end_to_end.specs.ExamplesOfCopies.{NotGivenExample, PcmCopyExample};
ghost use Rattle.bw_end_to_end.specs.ExamplesOfCopies.{ReadAgainExample, SameFileExample};
ghost use Rattle.bw_end_to_end.specs.Servers.{in_kept_folder, in_table};
ghost use Rattle.bw_end_to_end.specs.SentSamples.{FinishedSamplesAreCopied, FollowedSamplesAreCopied};
ghost use Rattle.bw_end_to_end.specs.SentCopies.{FileUploadsAreCopied, PcmUploadsAreCopied};
ghost use Rattle.bw_end_to_end.specs.SentCopies.{SentFilesAreCopied};

use bw_disk::Volume;
use bw_folder::{FolderJournal, FolderStore};
use bw_journal::Journal;
use bw_ports::{Dial, Pause};
use bw_send_file::FeedFault;
use bw_store::TakeStore;
use bw_upload::Feed;

/// The file of the take that a recording's requests make reads as that recording: the same format,
/// samples, history and markers, and the same fields, whatever the size of the blocks and the limit
/// of RIFF. Nothing of it has to be cleaned. What was set to mean that a field isn't given (a time
/// or UMID of zero, a level of 7FFFh) reads as nothing, which has the same bytes; without that the
/// copy is the recording itself. Each request fits in a message. What was cleaned once stays as it
/// is.
pub fn law_copied()
    ensures files { RecordingsAreCopied }
    ensures pcm { PcmRecordingsAreCopied }
    ensures equal { CopiesAreEqual }
    ensures pcm_equal { PcmCopiesAreEqual }
    ensures fit { RequestsFit }
    ensures once { CleansOnce }
{}

/// Where an upload stored each request of a recording, of a file or of headerless samples, the
/// server has a file that reads as that recording: over links that give each end a prefix of what
/// the other wrote, and an honest store, if nothing else was admitted under its name until then;
/// and it keeps it, whatever comes later. If `send --file` ended with status 0, its upload is such
/// a one.
pub fn law_copied_sent<
    F: Feed<Fault = FeedFault>,
    P: Pause,
    D: Dial,
    S: TakeStore,
    J: Journal,
    V: Volume,
    N: Volume,
>()
    ensures uploads { FileUploadsAreCopied F.Feed P.Pause D.Dial D.Reader.Source D.Writer.Sink
        (in_table S.TakeStore J.Journal) }
    ensures pcm { PcmUploadsAreCopied F.Feed P.Pause D.Dial D.Reader.Source D.Writer.Sink
        (in_table S.TakeStore J.Journal) }
    ensures commands { SentFilesAreCopied F.Feed P.Pause D.Dial D.Reader.Source D.Writer.Sink
        (in_table S.TakeStore J.Journal) }
    ensures uploads_in_folder { FileUploadsAreCopied F.Feed P.Pause D.Dial D.Reader.Source D.Writer.Sink
        (in_kept_folder V.Disk N.Disk ⟦<FolderStore<V> as TakeStore>⟧
        ⟦<FolderJournal<N> as Journal>⟧) }
    ensures pcm_in_folder { PcmUploadsAreCopied F.Feed P.Pause D.Dial D.Reader.Source D.Writer.Sink
        (in_kept_folder V.Disk N.Disk ⟦<FolderStore<V> as TakeStore>⟧
        ⟦<FolderJournal<N> as Journal>⟧) }
    ensures commands_in_folder { SentFilesAreCopied F.Feed P.Pause D.Dial D.Reader.Source D.Writer.Sink
        (in_kept_folder V.Disk N.Disk ⟦<FolderStore<V> as TakeStore>⟧
        ⟦<FolderJournal<N> as Journal>⟧) }
{
    crate::law_file_sent::<F, P, D>();
    crate::law_uploaded::<F, P, D>();
    crate::promise::<S, J, V, N>();
}

/// If `send --file --pcm` ended with status 0, its file has a recording of headerless samples, and
/// the server has a file that reads as that one, as `law_copied_sent` says of an upload; with
/// `--follow`, where what the file has at its end is a recording.
pub fn law_copied_samples<
    F: Feed<Fault = FeedFault>,
    P: Pause,
    D: Dial,
    S: TakeStore,
    J: Journal,
    V: Volume,
    N: Volume,
>()
    ensures finished { FinishedSamplesAreCopied F.Feed P.Pause D.Dial D.Reader.Source D.Writer.Sink
        (in_table S.TakeStore J.Journal) }
    ensures followed { FollowedSamplesAreCopied F.Feed P.Pause D.Dial D.Reader.Source D.Writer.Sink
        (in_table S.TakeStore J.Journal) }
    ensures finished_in_folder { FinishedSamplesAreCopied F.Feed P.Pause D.Dial D.Reader.Source
        D.Writer.Sink (in_kept_folder V.Disk N.Disk ⟦<FolderStore<V> as TakeStore>⟧
        ⟦<FolderJournal<N> as Journal>⟧) }
    ensures followed_in_folder { FollowedSamplesAreCopied F.Feed P.Pause D.Dial D.Reader.Source
        D.Writer.Sink (in_kept_folder V.Disk N.Disk ⟦<FolderStore<V> as TakeStore>⟧
        ⟦<FolderJournal<N> as Journal>⟧) }
{
    crate::law_file_sent::<F, P, D>();
    law_copied_sent::<F, P, D, S, J, V, N>();
}

/// Worked rows: files, and what a server has of them.
pub fn examples_of_copies()
    ensures same_file { SameFileExample }
    ensures extensible { ExtensibleCopyExample }
    ensures cleaned { CleanedCopyExample }
    ensures again { ReadAgainExample }
    ensures not_given { NotGivenExample }
    ensures pcm { PcmCopyExample }
{}
