// The worked examples of the card, proved under one lemma.
#![tactic(auto)]

ghost use Rattle.worked_examples.specs.Examples.{WorkedExamples};

// Nothing to run: its contract is the lemma.
pub fn worked_examples_hold()
    ensures { WorkedExamples }
{}
