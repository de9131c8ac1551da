//! Laws of the filter. Each function's contract is one; nothing runs.
ghost use Rattle.bw_serve.specs.OneNameAnswers.{ConnectionsAnswerOneName};
ghost use Rattle.bw_serve.specs.OneName.{OneNameIsLeft};

use crate::filtered_link::FilteredLink;
use bw_ports::Link;

/// Of what the filter gives for an exchange's bytes, the frames are those of the exchange up to the
/// first whose name isn't the first frame's. That one is bad for its name, at its place, and ends
/// the exchange. Without such a frame the exchange ends as it would without the filter, but if that
/// is at a bad frame, this may be bad for its name instead.
pub fn law_one_name()
    ensures { OneNameIsLeft }
{}

/// Over a filtered link with one name, whatever came between its turns, the answered frames are the
/// first of those that the link itself gave, and end before the first whose name isn't the first
/// frame's.
pub fn law_connections<L: Link>()
    ensures { ConnectionsAnswerOneName ⟦<FilteredLink<L> as Link>⟧ L.Link }
{
    bw_connections::laws::law_connections::<FilteredLink<L>>();
    law_one_name();
}
