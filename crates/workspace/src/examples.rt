// Worked examples.
ghost use Rattle.workspace.specs.Examples.{ExamplesHold};

// The worked examples, which the definitions answer as the rules do.
pub fn worked_examples()
    ensures { ExamplesHold }
{}
