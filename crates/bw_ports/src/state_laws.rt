//! What was noted is read back.
ghost use Rattle.bw_ports.specs.Laws.{CutStatesAreRead, HeadersAreApart, HeadersAreLines};
ghost use Rattle.bw_ports.specs.Laws.{OtherStatesSayNothing, StatesAreRead};

/// What was noted is read back, whichever prefix of it a kill leaves; the state of another header
/// says nothing.
pub fn law_states()
    // It gives the largest of the counts whose lines are whole; without its header, nothing.
    ensures cut { CutStatesAreRead }
    // Uncut it gives the largest of all.
    ensures whole { StatesAreRead }
    ensures others { OtherStatesSayNothing }
{}

/// A header is one line, and says what the state is about: two origins have two headers.
pub fn law_headers()
    ensures line { HeadersAreLines }
    ensures apart { HeadersAreApart }
{}
