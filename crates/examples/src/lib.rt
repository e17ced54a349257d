// Worked examples of reading, which the prover computes from the definitions: a definition that comes to mean something
// else is refused here.
#![tactic(auto)]

ghost use Rattle.std.specs.Prelude.{◌≡◌, true};
ghost use Rattle.examples.specs.Examples.{ExamplesHold};

// Whether every example of the list is read as it says there: always.
pub fn examples_hold() -> bool
    ensures value { result ≡ true }
    ensures all { ExamplesHold }
{
    true
}
