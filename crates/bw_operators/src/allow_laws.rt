//! Worked examples of lists of names and addresses.
ghost use Rattle.bw_operators.specs.ExampleAllowLists.{AllowExample, MappedExample, NetworksExample};

/// Which addresses are in a network, which are mapped, and which names may come from which peers.
pub fn law_allows()
    ensures networks { NetworksExample }
    ensures mapped { MappedExample }
    ensures names { AllowExample }
{}
