// Comparing programs.
ghost use Rattle.std.specs.Prelude.{◌≡◌, length, Decides, nat_lt};
ghost use Rattle.codec.specs.Laws.{Begins};
ghost use Rattle.program.specs.Laws.{OneReading};

use cisca::instruction::Instruction;

// Whether the first program has more records than the second. Tested first and alone, so that a wrong test is refused
// by this clause.
fn is_longer(first: &[Instruction], second: &[Instruction]) -> bool
    ensures { result ≡ nat_lt (length second.now) (length first.now) }
{
    first.len() > second.len()
}

// Whether the first program's list begins the second's. It does exactly where its bytes begin the
// second's.
pub fn begins(first: &[Instruction], second: &[Instruction]) -> bool
    ensures answers { Decides result (Begins first.now second.now) }
    ensures one_reading { OneReading first.now second.now }
{
    if is_longer(first, second) {
        return false;
    }
    second.starts_with(first)
}
