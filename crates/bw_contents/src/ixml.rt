//! The texts of an `iXML` document.
ghost use Rattle.std.specs.Prelude.{◌≡◌, ◌++◌, [], OnOk};
ghost use Rattle.bw_contents.specs.Ixml.{no_track, recording_says, text_said, track_index};
ghost use Rattle.bw_contents.specs.Ixml.{track_says, track_with, with_element};

use crate::content::{ChunkText, Kind, put_text};
use crate::markup::number_of_digits;
use std::alloc::{AllocError, Global};
use std::marker::Model;

/// What a track of `TRACK_LIST` has said so far.
#[derive(Debug, Drop)]
pub(crate) struct Track {
    channel: Vec<u8>,
    interleave: Vec<u8>,
    name: Vec<u8>,
    function: Vec<u8>,
}

impl Model for Track {
    ghost use Rattle.bw_contents.specs.Ixml.{TrackTexts};

    ghost Value = { TrackTexts };

    ghost view = { λ t. record {
      channel = t.channel.items;
      interleave = t.interleave.items;
      name = t.name.items;
      function = t.function.items;
    } };
}

impl Track {
    fn new(alloc: Global) -> Track
        ensures { result ≡ no_track }
    {
        Track {
            channel: Vec::new(alloc),
            interleave: Vec::new(alloc),
            name: Vec::new(alloc),
            function: Vec::new(alloc),
        }
    }

    /// Keeps what the element at this path says of the track.
    fn keep(&mut self, path: &[u8], text: &[u8]) -> Result<(), AllocError>
        ensures { OnOk result (self.new ≡ track_with path.now text.now self.old) }
    {
        if path == b"/BWFXML/TRACK_LIST/TRACK/CHANNEL_INDEX".as_slice() {
            set(&mut self.channel, text)
        } else if path == b"/BWFXML/TRACK_LIST/TRACK/INTERLEAVE_INDEX".as_slice() {
            set(&mut self.interleave, text)
        } else if path == b"/BWFXML/TRACK_LIST/TRACK/NAME".as_slice() {
            set(&mut self.name, text)
        } else if path == b"/BWFXML/TRACK_LIST/TRACK/FUNCTION".as_slice() {
            set(&mut self.function, text)
        } else {
            Ok(())
        }
    }

    /// Its index in the file's frames, or else its recorder's channel.
    fn index(&self) -> Option<u32>
        ensures { result ≡ track_index self.now }
    {
        let interleave = number_of_digits(10, u32::MAX, self.interleave.as_slice());
        let channel = number_of_digits(10, u32::MAX, self.channel.as_slice());
        match interleave {
            Some(index) => Some(index),
            None => channel,
        }
    }

    /// Appends what it says.
    fn put(&self, alloc: Global, said: &mut Vec<ChunkText>) -> Result<(), AllocError>
        ensures { OnOk result (said.new.items ≡ said.old.items ++ track_says self.now) }
    {
        let index = self.index();
        put_said(alloc, said, Kind::Track { index }, self.name.as_slice())?;
        put_said(
            alloc,
            said,
            Kind::Function { index },
            self.function.as_slice(),
        )?;
        put_said(
            alloc,
            said,
            Kind::Channel { index },
            self.channel.as_slice(),
        )?;
        Ok(())
    }
}

/// Puts a text in the place of another.
fn set(text: &mut Vec<u8>, bytes: &[u8]) -> Result<(), AllocError>
    ensures { OnOk result (text.new.items ≡ bytes.now) }
{
    text.clear();
    text.extend_from_slice(bytes)
}

/// Appends a text, unless it is empty.
fn put_said(
    alloc: Global,
    said: &mut Vec<ChunkText>,
    kind: Kind,
    text: &[u8],
) -> Result<(), AllocError>
    ensures { OnOk result (said.new.items ≡ said.old.items ++ text_said kind text.now) }
{
    if text.is_empty() {
        return Ok(());
    }
    put_text(alloc, said, kind, text)
}

/// Appends what the element at this path says of the recording.
fn put_recording(
    alloc: Global,
    said: &mut Vec<ChunkText>,
    path: &[u8],
    text: &[u8],
) -> Result<(), AllocError>
    ensures { OnOk result (said.new.items ≡ said.old.items ++ recording_says path.now text.now) }
{
    if path == b"/BWFXML/PROJECT".as_slice() {
        put_said(alloc, said, Kind::Project, text)
    } else if path == b"/BWFXML/SCENE".as_slice() {
        put_said(alloc, said, Kind::Scene, text)
    } else if path == b"/BWFXML/TAKE".as_slice() {
        put_said(alloc, said, Kind::Take, text)
    } else if path == b"/BWFXML/TAPE".as_slice() {
        put_said(alloc, said, Kind::Tape, text)
    } else if path == b"/BWFXML/NOTE".as_slice() {
        put_said(alloc, said, Kind::IxmlNote, text)
    } else {
        Ok(())
    }
}

/// What was said so far: by the track that goes on, and before it.
#[derive(Debug, Drop)]
pub(crate) struct IxmlTexts {
    track: Track,
    said: Vec<ChunkText>,
}

impl Model for IxmlTexts {
    ghost use Rattle.bw_contents.specs.Ixml as ixml;

    ghost Value = { ixml.IxmlTexts };

    ghost view = { λ t. record { track = t.track; said = t.said.items } };
}

impl IxmlTexts {
    pub(crate) fn new(alloc: Global) -> IxmlTexts
        ensures { result ≡ record { track = no_track; said = [] } }
    {
        IxmlTexts {
            track: Track::new(alloc),
            said: Vec::new(alloc),
        }
    }

    /// Keeps the text of the element at this path, which ends.
    pub(crate) fn put(&mut self, alloc: Global, path: &[u8], text: &[u8]) -> Result<(), AllocError>
        ensures { OnOk result (self.new ≡ with_element path.now text.now self.old) }
    {
        if path == b"/BWFXML/TRACK_LIST/TRACK".as_slice() {
            self.end_track(alloc)
        } else {
            self.track.keep(path, text)?;
            put_recording(alloc, &mut self.said, path, text)
        }
    }

    /// Appends what the track says, which ends.
    fn end_track(&mut self, alloc: Global) -> Result<(), AllocError>
        ensures { OnOk result (self.new
            ≡ record { track = no_track; said = self.old.said ++ track_says self.old.track }) }
    {
        self.track.put(alloc, &mut self.said)?;
        self.track = Track::new(alloc);
        Ok(())
    }

    /// What was said.
    pub(crate) fn into_said(self) -> Vec<ChunkText>
        ensures { result.items ≡ self.said }
    {
        self.said
    }
}
