// Making a record, and taking it apart.
ghost use Rattle.std.specs.Prelude.{◌≡◌, length};
ghost use Rattle.cisca.specs.Legality.{pairing};
ghost use Rattle.cisca.specs.Making.{made, making, number_of};
ghost use Rattle.cisca.specs.Pairings.{legal_pairings};

use super::Instruction;
use crate::operation::Operation;
use operands::operand::Operand;

// Why a record is not made.
// An enum although of one refusal: a match names it, and a struct with no field would say no more.
#[derive(Clone, Copy, PartialEq, Eq, Debug)]
pub enum MakingFault {
    // The operation does not take these operands.
    Illegal,
}

impl MakingFault {
    // The refusal's number: 4.
    pub fn number(self) -> u8
        ensures { result ≡ number_of self }
    {
        match self {
            MakingFault::Illegal => 4,
        }
    }
}

// How many pairings of an operation with the modes of its operands are legal.
pub fn legal_pairing_count() -> usize
    ensures { result ≡ length legal_pairings }
{
    220
}

// Whether the operation takes these operands.
// Two Options, by a rule of the project: the call that makes a record is told which are absent.
fn is_legal(operation: Operation, first: Option<Operand>, second: Option<Operand>) -> bool
    ensures { result ≡ pairing operation first second }
{
    let group = operation.group();
    match (first, second) {
        (None, None) => group.operand_count() == 0,
        (None, Some(_)) => false,
        (Some(a), None) => group.operand_count() == 1 && group.first_fits(a.mode()),
        (Some(a), Some(b)) => {
            group.operand_count() == 2
                && group.first_fits(a.mode())
                && group.second_fits(a.mode(), b.mode())
        }
    }
}

impl Instruction {
    // The record of an operation with its operands, or a refusal where they do not go together.
    pub fn new(
        operation: Operation,
        first: Option<Operand>,
        second: Option<Operand>,
    ) -> Result<Instruction, MakingFault>
        ensures { made result ≡ making operation first second }
    {
        if is_legal(operation, first, second) {
            Ok(Instruction {
                operation,
                first,
                second,
            })
        } else {
            Err(MakingFault::Illegal)
        }
    }

    pub fn operation(&self) -> Operation
        ensures { result ≡ self.now.operation }
    {
        self.operation
    }

    pub fn first(&self) -> Option<Operand>
        ensures { result ≡ self.now.first }
    {
        self.first
    }

    pub fn second(&self) -> Option<Operand>
        ensures { result ≡ self.now.second }
    {
        self.second
    }
}
