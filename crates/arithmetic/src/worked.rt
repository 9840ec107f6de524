// Worked results, proved of the definitions.
ghost use Rattle.std.specs.Prelude.{◌≡◌, length};
ghost use Rattle.std.specs.List.{AllByRecursion};
ghost use Rattle.arithmetic.specs.Worked.{Worked, examples};

// How many results are proved of the definitions.
pub fn worked_results() -> usize
    ensures count { result ≡ length examples }
    ensures proved { AllByRecursion Worked examples }
{
    3
}
