//! Worked examples of the definitions.
ghost use Rattle.bw_contents.specs.ExamplesOfIxml.{IxmlExample, MalformedIxmlExample};

/// What a worked `iXML` chunk says, and one that isn't well-formed.
pub fn law_ixml_examples()
    ensures whole { IxmlExample }
    ensures malformed { MalformedIxmlExample }
{}
