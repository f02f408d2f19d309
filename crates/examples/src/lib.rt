//! Worked examples, proved of the definitions that the contracts of the other crates cite.
#![tactic(auto)]

ghost use Rattle.examples.specs.Examples.{Examples};

/// Every example holds.
pub fn examples_hold()
    ensures { Examples }
{}
