// A record of an instruction, legal from its making on.
ghost use Rattle.std.specs.Prelude.{Some, T};
ghost use Rattle.cisca.specs.Legality.{pairing};
ghost use Rattle.cisca.specs.Text.{instruction_text};
ghost use Rattle.operands.specs.Widths.{all_within};

use crate::operation::Operation;
use operands::operand::Operand;
use std::fmt;

pub mod making;

// An operation with its operands. Only legal pairings have a record, so that nothing that is given
// one has to test it again.
#[derive(Clone, Copy, PartialEq, Eq, Debug)]
pub struct Instruction {
    operation: Operation,
    first: Option<Operand>,
    second: Option<Operand>,
    // The operation takes these operands.
    ghost legal: { T (pairing operation first second) },
    // Each quantity in an operand fits its width.
    ghost narrow: { T (all_within first) },
    ghost slim: { T (all_within second) },
}

impl fmt::Display for Instruction {
    ghost output = { λ it. Some (instruction_text it.operation it.first it.second) };

    fn fmt<W: fmt::Write>(&self, f: &mut fmt::Formatter<W>) -> fmt::Result {
        let Some(first) = self.first else {
            return write!(f, "{}", self.operation);
        };
        write!(f, "{:4} {first}", self.operation)?;
        match self.second {
            Some(second) => write!(f, ", {second}"),
            None => Ok(()),
        }
    }
}
