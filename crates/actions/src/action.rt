// The actions of the CISCA machine. A legal instruction is exactly one of them.
ghost use Rattle.std.specs.Prelude.{◌≡◌};
ghost use Rattle.actions.specs.declared.action.Action.TheVariants.{Inner};

use arithmetic::operation::{BinaryOperation, Comparison, UnaryOperation};
use operands::register::Register;
use quantity::{Address, Displacement, Number};

// How a word in memory is found: modes 2 to 5.
#[derive(Clone, Copy, PartialEq, Eq, Debug)]
pub enum MemoryOperand {
    Direct(Address),
    Indirect(Register),
    Relative(Register, Displacement),
    Indexed(Address, Register),
}

// Where a word is kept: modes 1 to 5.
#[derive(Clone, Copy, PartialEq, Eq, Debug)]
pub enum Place {
    Register(Register),
    Memory(MemoryOperand),
}

// Where a word comes from: modes 0 to 5.
#[derive(Clone, Copy, PartialEq, Eq, Debug)]
pub enum Source {
    Immediate(Number),
    Place(Place),
}

// What a conditional jump asks of the last comparison.
#[derive(Clone, Copy, PartialEq, Eq, Debug)]
pub enum Condition {
    Equal,
    NotEqual,
    Less,
    LessOrEqual,
    Greater,
    GreaterOrEqual,
}

// What is done with the processor and its memory alone.
#[derive(Clone, Copy, PartialEq, Eq, Debug)]
pub enum Command {
    // NOP.
    Pass,
    // STI and CLI: the bit IE is set or cleared.
    Enable(bool),
    Move(Place, Source),
    Push(Place),
    Pop(Place),
    // The result replaces the word in the place.
    Combine(BinaryOperation, Place, Source),
    // The quotient replaces the word in the place, and the remainder goes to R0.
    Divide(Place, Source),
    Alter(UnaryOperation, Place),
    // The status alone changes.
    Compare(Comparison, Place, Source),
    Jump(Address),
    Branch(Condition, Displacement),
    Call(Address),
    Return,
    // INT, with the index as it stands in the instruction.
    Interrupt(Number),
    // IRET.
    Resume,
}

// A command, or a word that goes through a port; the memory operand's address is the port's number.
#[derive(Clone, Copy, PartialEq, Eq, Debug)]
pub enum Action {
    Inner(Command),
    Input(Register, MemoryOperand),
    Output(MemoryOperand, Register),
}

impl From<Command> for Action {
    ghost from_gives = { λ x y. y ≡ Inner x };

    fn from(command: Command) -> Action {
        Action::Inner(command)
    }
}
