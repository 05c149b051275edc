ghost use Rattle.std.specs.Prelude.{◌≡◌};
ghost use Rattle.pulses.specs.Examples.{WorkedExamples};

/// The worked examples of the index rules, proved: answers how many.
pub fn worked_examples() -> usize
    ensures number { result ≡ 12 }
    ensures hold { WorkedExamples }
{
    12
}
