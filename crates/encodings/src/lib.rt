// Worked encodings: some proved of the definitions, all run through the code.
#![tactic(auto)]

ghost use Rattle.std.specs.Prelude.{◌≡◌, length};
ghost use Rattle.std.specs.List.{AllByRecursion};
ghost use Rattle.encodings.specs.Examples.{BackwardJump, Worked, examples};

// How many examples are proved of the definitions: their bytes read as they say, and what is
// accepted is written as they are.
pub fn worked_examples() -> usize
    ensures count { result ≡ length examples }
    ensures proved { AllByRecursion Worked examples }
    ensures backward { BackwardJump }
{
    5
}

#[cfg(test)]
mod tests;
