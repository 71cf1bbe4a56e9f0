// The worked examples of the rules as one theorem, named by a contract so that the check asks for it.
#![tactic(auto)]

ghost use Rattle.worked.specs.Examples.{WorkedExamples};

// Answers nothing: its contract is the point.
pub fn worked_examples_hold()
    ensures { WorkedExamples }
{}
