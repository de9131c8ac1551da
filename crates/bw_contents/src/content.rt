//! A text of a file, and what it is.
ghost use Rattle.std.specs.Prelude.{◌≡◌, ◌++◌, OnOk};
ghost use Rattle.bw_contents.specs.Texts.{kind_id, kind_name, kind_point, one_said};

use bw_layout::ChunkId;
use std::alloc::{AllocError, Global};
use std::marker::Model;

/// What a text of a file is.
#[derive(Clone, Copy, Debug, PartialEq, Eq)]
pub enum Kind {
    /// The name of a format tag, or nothing (`fmt `).
    Tag,
    /// The channel mask of an extensible format, with the names of its speakers.
    Speakers,
    /// The subformat of an extensible format: its GUID, with its name if it has one.
    Subformat,
    /// The coding history (`bext`).
    History,
    /// A text of `LIST` `INFO` with this id.
    Info { id: ChunkId },
    /// The label of the cue point with this identifier (`LIST` `adtl`).
    Label { point: u32 },
    /// The note of the cue point with this identifier.
    Note { point: u32 },
    /// How many bytes of a chunk with this id were read, which has more.
    Cut { id: ChunkId },
    /// The project of an `iXML` chunk.
    Project,
    /// The scene or slate of an `iXML` chunk.
    Scene,
    /// The take's number of an `iXML` chunk.
    Take,
    /// The sound roll of an `iXML` chunk.
    Tape,
    /// The note of an `iXML` chunk.
    IxmlNote,
    /// The name of a track of an `iXML` chunk, with the track's interleave index, or else its
    /// channel index, if one is a number below 2^32.
    Track { index: Option<u32> },
    /// The function of a track.
    Function { index: Option<u32> },
    /// The channel index of a track.
    Channel { index: Option<u32> },
    /// A chunk with this id should be an XML document, and isn't well-formed.
    Malformed { id: ChunkId },
    /// Why the XML of a chunk with this id isn't read.
    Unread { id: ChunkId },
    /// How many bytes of XML a chunk with this id has, which isn't looked into.
    Xml { id: ChunkId },
}

impl Kind {
    /// Its name, as it is printed.
    pub fn name(self) -> &'static str
        ensures { result.now ≡ kind_name self }
    {
        match self {
            Kind::Tag => "tag",
            Kind::Speakers => "speakers",
            Kind::Subformat => "subformat",
            Kind::History => "history",
            Kind::Info { id: _ } => "info",
            Kind::Label { point: _ } => "label",
            Kind::Note { point: _ } => "note",
            Kind::Cut { id: _ } => "cut",
            Kind::Project => "project",
            Kind::Scene => "scene",
            Kind::Take => "take",
            Kind::Tape => "tape",
            Kind::IxmlNote => "ixml-note",
            Kind::Track { index: _ } => "track",
            Kind::Function { index: _ } => "function",
            Kind::Channel { index: _ } => "channel",
            Kind::Malformed { id: _ } => "malformed",
            Kind::Unread { id: _ } => "unread",
            Kind::Xml { id: _ } => "xml",
        }
    }

    /// The id of the chunk that says it.
    pub fn id(self) -> ChunkId
        ensures { result ≡ kind_id self }
    {
        match self {
            Kind::Tag => ChunkId(*b"fmt "),
            Kind::Speakers => ChunkId(*b"fmt "),
            Kind::Subformat => ChunkId(*b"fmt "),
            Kind::History => ChunkId(*b"bext"),
            Kind::Info { id } => id,
            Kind::Label { point: _ } => ChunkId(*b"labl"),
            Kind::Note { point: _ } => ChunkId(*b"note"),
            Kind::Cut { id } => id,
            Kind::Project => ChunkId(*b"iXML"),
            Kind::Scene => ChunkId(*b"iXML"),
            Kind::Take => ChunkId(*b"iXML"),
            Kind::Tape => ChunkId(*b"iXML"),
            Kind::IxmlNote => ChunkId(*b"iXML"),
            Kind::Track { index: _ } => ChunkId(*b"iXML"),
            Kind::Function { index: _ } => ChunkId(*b"iXML"),
            Kind::Channel { index: _ } => ChunkId(*b"iXML"),
            Kind::Malformed { id } => id,
            Kind::Unread { id } => id,
            Kind::Xml { id } => id,
        }
    }

    /// The identifier of the cue point, or the index of the track, that it is about.
    pub fn point(self) -> Option<u32>
        ensures { result ≡ kind_point self }
    {
        match self {
            Kind::Tag => None,
            Kind::Speakers => None,
            Kind::Subformat => None,
            Kind::History => None,
            Kind::Info { id: _ } => None,
            Kind::Label { point } => Some(point),
            Kind::Note { point } => Some(point),
            Kind::Cut { id: _ } => None,
            Kind::Project => None,
            Kind::Scene => None,
            Kind::Take => None,
            Kind::Tape => None,
            Kind::IxmlNote => None,
            Kind::Track { index } => index,
            Kind::Function { index } => index,
            Kind::Channel { index } => index,
            Kind::Malformed { id: _ } => None,
            Kind::Unread { id: _ } => None,
            Kind::Xml { id: _ } => None,
        }
    }
}

/// A text of a file.
#[derive(Debug, Drop)]
pub struct ChunkText {
    pub kind: Kind,
    /// Its bytes, as they are in the file, or a name.
    pub text: Vec<u8>,
}

impl Model for ChunkText {
    ghost use Rattle.bw_contents.specs.Texts.{Said};

    ghost Value = { Said };

    ghost view = { λ c. record { kind = c.kind; text = c.text.items } };
}

/// What the chunks of a file say, in their order.
#[derive(Debug, Drop)]
pub struct Contents {
    texts: Vec<ChunkText>,
}

impl Model for Contents {
    ghost use Rattle.std.specs.Prelude.{List};
    ghost use Rattle.bw_contents.specs.Texts.{Said};

    ghost Value = { List Said };

    ghost view = { λ c. c.texts.items };
}

impl Contents {
    pub(crate) fn new(texts: Vec<ChunkText>) -> Contents
        ensures { result ≡ texts.items }
    {
        Contents { texts }
    }

    /// The texts, in their order.
    pub fn as_slice(&self) -> &[ChunkText]
        ensures { result.now ≡ self.now }
    {
        self.texts.as_slice()
    }
}

/// Appends a text.
pub(crate) fn put_text(
    alloc: Global,
    contents: &mut Vec<ChunkText>,
    kind: Kind,
    text: &[u8],
) -> Result<(), AllocError>
    ensures { OnOk result (contents.new.items ≡ contents.old.items ++ one_said kind text.now) }
{
    let text = Vec::from_slice(alloc, text)?;
    contents.push(ChunkText { kind, text })?;
    Ok(())
}
