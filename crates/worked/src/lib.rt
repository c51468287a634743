// The worked examples: numbers that follow from the definitions which the contracts cite.
#![tactic(auto)]

ghost use Rattle.worked.specs.Worked.{Worked};

// Nothing to run: what it ensures is what is worth having.
pub fn worked_examples_hold()
    ensures { Worked }
{}
