// The operations by name.
ghost use Rattle.std.specs.Prelude.{◌≡◌};
ghost use Rattle.arithmetic.specs.Laws.{SubtractionAddsComplement};
ghost use Rattle.arithmetic.specs.Marks.{Keeps, binary_marks, comparison_marks, unary_marks};
ghost use Rattle.arithmetic.specs.Results.{altered, combined, compared};

use crate::logic::clear;
use crate::shifts::{sal, sar};
use crate::status::Status;
use crate::sums::{add, mul, sub};
use quantity::Number;

// From two words to a word and the status bits.
#[derive(Clone, Copy, PartialEq, Eq, Debug)]
pub enum BinaryOperation {
    Add,
    Sub,
    Mul,
    And,
    Or,
    Xor,
    Sal,
    Sar,
}

// From two words to the status bits alone.
#[derive(Clone, Copy, PartialEq, Eq, Debug)]
pub enum Comparison {
    Cmp,
    Test,
}

// From one word to a word and the status bits.
#[derive(Clone, Copy, PartialEq, Eq, Debug)]
pub enum UnaryOperation {
    Inc,
    Dec,
    Neg,
    Not,
}

impl BinaryOperation {
    // The result of a, the destination's word, and b, the source's; for a shift b is the count.
    // A match, and no table of closures: an operation is data of an instruction.
    pub fn apply(self, a: Number, b: Number, status: Status) -> (Number, Status)
        ensures result { result ≡ combined self a b status }
        ensures complement { SubtractionAddsComplement }
        ensures marks { Keeps (binary_marks self) status result.1 }
    {
        match self {
            BinaryOperation::Add => add(a, b, status),
            BinaryOperation::Sub => sub(a, b, status),
            BinaryOperation::Mul => mul(a, b, status),
            BinaryOperation::And => clear(status, a.0 & b.0),
            BinaryOperation::Or => clear(status, a.0 | b.0),
            BinaryOperation::Xor => clear(status, a.0 ^ b.0),
            BinaryOperation::Sal => sal(a, b, status),
            BinaryOperation::Sar => sar(a, b, status),
        }
    }
}

impl Comparison {
    // The status that a subtraction of b from a, or the AND of both, leaves.
    pub fn apply(self, a: Number, b: Number, status: Status) -> Status
        ensures result { result ≡ compared self a b status }
        ensures marks { Keeps (comparison_marks self) status result }
    {
        match self {
            Comparison::Cmp => sub(a, b, status).1,
            Comparison::Test => clear(status, a.0 & b.0).1,
        }
    }
}

impl UnaryOperation {
    // One more, one less, 0 minus the word, or every bit turned; NOT leaves the status.
    pub fn apply(self, a: Number, status: Status) -> (Number, Status)
        ensures result { result ≡ altered self a status }
        ensures marks { Keeps (unary_marks self) status result.1 }
    {
        match self {
            UnaryOperation::Inc => add(a, Number(1), status),
            UnaryOperation::Dec => sub(a, Number(1), status),
            UnaryOperation::Neg => sub(Number(0), a, status),
            UnaryOperation::Not => (Number(!a.0), status),
        }
    }
}
