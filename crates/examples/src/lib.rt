// Worked examples, proved of the definitions in one statement over a list of them.
#![tactic(auto)]

ghost use Rattle.examples.specs.Examples.{ExamplesHold};

/// Every example of the list holds.
pub fn examples_hold()
    ensures { ExamplesHold }
{}
