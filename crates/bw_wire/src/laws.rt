//! Laws of the wire format. Each function's contract is one; nothing runs.
ghost use Rattle.bw_model.specs.Wire.{DecodesSpellings};
ghost use Rattle.bw_model.specs.Replies.{DecodesReplySpellings};
ghost use Rattle.bw_model.specs.Stream.{StreamsAgree, FirstVersionStays};
ghost use Rattle.bw_wire.specs.Runs.{RunsFollowStreams, ReplyRunsFollowReplies};

/// A body is read as a frame exactly if it spells it.
pub fn law_spellings()
    ensures { DecodesSpellings }
{}

/// A body is read as a reply exactly if it spells it.
pub fn law_reply_spellings()
    ensures { DecodesReplySpellings }
{}

/// Bytes have exactly one stream of frames.
pub fn law_streams()
    ensures { StreamsAgree }
{}

/// What the first version of messages reads whole, the second reads the same way.
pub fn law_first_version()
    ensures { FirstVersionStays }
{}

/// In whatever pieces its bytes come, a framer gives the stream's messages and asks in order, and
/// all of them if it gives no more.
pub fn law_framer()
    ensures { RunsFollowStreams }
{}

/// In whatever pieces its bytes come, a framer of replies gives the replies that they spell in
/// order, and all of them if it gives no more.
pub fn law_reply_framer()
    ensures { ReplyRunsFollowReplies }
{}
