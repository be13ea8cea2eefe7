// 01's worked examples (01, "Examples on both sides"), as one theorem about the definitions.
#![tactic(auto)]

ghost use Rattle.examples.specs.Spelled.{AllHold};
ghost use Rattle.examples.specs.Examples.{examples};

// P1 to P12 hold: a theorem, promised by a function that does nothing.
pub fn hold()
    ensures { AllHold examples }
{}
