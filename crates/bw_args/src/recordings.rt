//! Recordings as a command line asks for them.
use bw_model::Name;
use std::net::SocketAddr;

/// The file of a recording, and what a command line says about it.
#[derive(Debug, PartialEq, Eq, Drop)]
pub struct SourceFile {
    /// Its path, as it was given.
    pub path: String,
    /// What is set in place of what the file has, each as it was given, in this order. Whether they
    /// are settings isn't checked here.
    pub settings: Vec<String>,
    /// Whether a recording is refused that loses anything of the file.
    pub strict: bool,
    /// Whether a recording is refused whose texts would be cleaned, or that loses cue points.
    pub strict_texts: bool,
    /// The path of the file that keeps the chunks that a take doesn't carry, as it was given, if one does.
    pub left_out: Option<String>,
}

/// Headerless samples, as a command line describes them, or those of a file with a header that another
/// program still writes. Whether there is such a format isn't checked here.
#[derive(Debug, PartialEq, Eq, Drop)]
pub struct PcmSource {
    /// The sample rate, in Hz.
    pub rate: u32,
    /// Samples per frame.
    pub channels: u32,
    /// Bits per sample.
    pub bits: u32,
    /// How many bytes of the file come before the first sample.
    pub skip: u32,
    /// How many frames a block has at most, where that is given: at least 1.
    pub block: Option<u32>,
    /// The path that exists once the recording has ended, as it was given, where another program
    /// still writes the file.
    pub until: Option<String>,
    /// The path of the file to which lines for markers are appended, as it was given.
    pub marks: Option<String>,
    /// Whether the file is a spool: standard input is appended to it, and its end is that of the
    /// recording. No path says that then.
    pub is_spooled: bool,
    /// Whether fields of `bext` that aren't set may be filled.
    pub defaults: bool,
    /// Whether the file is followed, and its header says the format and where the samples begin. No
    /// option says them then: rate, channels, bits and skip are 0.
    pub in_header: bool,
}

/// The sender of headerless samples that a command line asks for.
#[derive(Debug, PartialEq, Eq, Drop)]
pub struct PcmSender {
    /// Where the server listens, as for the server itself.
    pub connect: SocketAddr,
    /// The take's name.
    pub name: Name,
    /// The file or the spool, and what is said about it.
    pub source: SourceFile,
    /// The samples in the file.
    pub pcm: PcmSource,
    /// How many seconds it waits for the server, 1 to 86,400.
    pub timeout: u32,
    /// After how many links in a row that settle nothing it gives up, 1 to 1,000,000; None for any
    /// number.
    pub fruitless: Option<u32>,
    /// Whether each change of the link is reported in a line on standard error.
    pub log: bool,
    /// How many bytes a second it sends at most, at least 1; None for any number.
    pub rate: Option<u32>,
}

/// Where a receipt goes, and how.
#[derive(Debug, PartialEq, Eq, Drop)]
pub struct ReceiptTarget {
    /// The path of the file that it is added to, as it was given; `-` for standard output.
    pub path: String,
    /// Whether it is a line of JSON, or of words.
    pub json: bool,
}

/// The sender of a recording that a command line asks for.
#[derive(Debug, PartialEq, Eq, Drop)]
pub struct FileSender {
    /// Where the server listens, as for the server itself.
    pub connect: SocketAddr,
    /// The take's name.
    pub name: Name,
    /// The recording.
    pub source: SourceFile,
    /// How many seconds it waits for the server, 1 to 86,400.
    pub timeout: u32,
    /// After how many links in a row that settle nothing it gives up, 1 to 1,000,000.
    pub fruitless: u32,
    /// Whether each change of the link is reported in a line on standard error.
    pub log: bool,
    /// The path of the file of its state, if it keeps one, as it was given.
    pub state: Option<String>,
    /// Where its receipt goes, if it writes one.
    pub receipt: Option<ReceiptTarget>,
    /// How many bytes a second it sends at most, at least 1; None for any number.
    pub rate: Option<u32>,
}

/// The sender of several recordings that a command line asks for.
#[derive(Debug, PartialEq, Eq, Drop)]
pub struct FilesSender {
    /// Where the server listens, as for the server itself.
    pub connect: SocketAddr,
    /// The paths of recordings, and of folders of recordings, as they were given, in this order.
    pub paths: Vec<String>,
    /// The path of the file that gives takes their names, if one does, as it was given.
    pub names: Option<String>,
    /// What is set in place of what each file has, as in `SourceFile`.
    pub settings: Vec<String>,
    /// Whether a recording is refused that loses anything of its file.
    pub strict: bool,
    /// Whether a recording is refused whose texts would be cleaned, or that loses cue points.
    pub strict_texts: bool,
    /// How many seconds it waits for the server, 1 to 86,400.
    pub timeout: u32,
    /// After how many links in a row that settle nothing it gives a recording up, 1 to 1,000,000.
    pub fruitless: u32,
    /// Whether each change of the link is reported in a line on standard error.
    pub log: bool,
    /// The path of the folder of their states, if they keep any, as it was given.
    pub states: Option<String>,
    /// Where their receipts go, if they write any.
    pub receipt: Option<ReceiptTarget>,
    /// How many bytes a second it sends at most, at least 1; None for any number.
    pub rate: Option<u32>,
}
