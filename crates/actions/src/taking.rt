// Taking an instruction apart.
// Functions to an Option, and no TryFrom: no caller would read which mode an operand has instead.
ghost use Rattle.std.specs.Prelude.{◌≡◌, Some};
ghost use Rattle.std.specs.Option.{option_zip};
ghost use Rattle.actions.specs.Actions.{action, action_of, altering, any_source, branching, combining, comparing, displacement_of, inward_of, memory_of, number_of, only, outward_of, pair_of, place_of, plain_source, register_of, source_for, with_none, with_one};
ghost use Rattle.actions.specs.declared.action.Action.TheVariants.{Inner};
ghost use Rattle.cisca.specs.Making.{parts};

use crate::action::{Action, Command, Condition, MemoryOperand, Place, Source};
use arithmetic::operation::{BinaryOperation, Comparison, UnaryOperation};
use cisca::instruction::Instruction;
use cisca::operation::Operation;
use operands::operand::Operand;
use operands::register::Register;
use quantity::{Address, Displacement, Number};

// Modes 2 to 5.
fn memory_operand(operand: Operand) -> Option<MemoryOperand>
    ensures { result ≡ memory_of operand }
{
    match operand {
        Operand::Direct(at) => Some(MemoryOperand::Direct(at)),
        Operand::Indirect(register) => Some(MemoryOperand::Indirect(register)),
        Operand::Relative(register, by) => Some(MemoryOperand::Relative(register, by)),
        Operand::Indexed(at, register) => Some(MemoryOperand::Indexed(at, register)),
        _ => None,
    }
}

// Mode 1.
fn register_operand(operand: Operand) -> Option<Register>
    ensures { result ≡ register_of operand }
{
    let Operand::Register(register) = operand else {
        return None;
    };
    Some(register)
}

// Modes 1 to 5.
fn place_operand(operand: Operand) -> Option<Place>
    ensures { result ≡ place_of operand }
{
    match operand {
        Operand::Register(register) => Some(Place::Register(register)),
        _ => memory_operand(operand).map(Place::Memory),
    }
}

// Modes 0 and 1.
fn plain_operand(operand: Operand) -> Option<Source>
    ensures { result ≡ plain_source operand }
{
    match operand {
        Operand::Immediate(number) => Some(Source::Immediate(number)),
        Operand::Register(register) => Some(Source::Place(Place::Register(register))),
        _ => None,
    }
}

// Modes 0 to 5. Like `place_operand` in shape alone: each falls back on a narrower one of its own.
fn any_operand(operand: Operand) -> Option<Source>
    ensures { result ≡ any_source operand }
{
    match operand {
        Operand::Immediate(number) => Some(Source::Immediate(number)),
        _ => place_operand(operand).map(Source::Place),
    }
}

// A register takes any source, memory a plain one.
fn source_operand(destination: Place, operand: Operand) -> Option<Source>
    ensures { result ≡ source_for destination operand }
{
    match destination {
        Place::Register(_) => any_operand(operand),
        Place::Memory(_) => plain_operand(operand),
    }
}

// The operands as they stand in an instruction.
#[derive(Clone, Copy)]
struct Operands {
    first: Option<Operand>,
    second: Option<Operand>,
}

impl Operands {
    // The command, where there is no operand.
    fn none(self, command: Command) -> Option<Action>
        ensures { result ≡ with_none (Inner command) self.first self.second }
    {
        match (self.first, self.second) {
            (None, None) => Some(Action::Inner(command)),
            _ => None,
        }
    }

    // The operand, where there is one.
    fn only(self) -> Option<Operand>
        ensures { result ≡ only self.first self.second }
    {
        match (self.first, self.second) {
            (operand, None) => operand,
            _ => None,
        }
    }

    // The operands, where there are two.
    fn both(self) -> Option<(Operand, Operand)>
        ensures { result ≡ option_zip self.first self.second }
    {
        self.first.zip(self.second)
    }

    // A method for each kind of operand: each is one pattern, which a closure would only wrap.
    fn place(self) -> Option<Place>
        ensures { result ≡ with_one place_of self.first self.second }
    {
        place_operand(self.only()?)
    }

    fn number(self) -> Option<Number>
        ensures { result ≡ with_one number_of self.first self.second }
    {
        let Operand::Immediate(number) = self.only()? else {
            return None;
        };
        Some(number)
    }

    fn displacement(self) -> Option<Displacement>
        ensures { result ≡ with_one displacement_of self.first self.second }
    {
        let Operand::PcRelative(by) = self.only()? else {
            return None;
        };
        Some(by)
    }

    // A destination and a source.
    fn pair(self) -> Option<(Place, Source)>
        ensures { result ≡ pair_of self.first self.second }
    {
        let (a, b) = self.both()?;
        let destination = place_operand(a)?;
        Some((destination, source_operand(destination, b)?))
    }

    // A register, then a port. It and the next stay two: swapping the operands of one would say less.
    fn inward(self) -> Option<(Register, MemoryOperand)>
        ensures { result ≡ inward_of self.first self.second }
    {
        let (a, b) = self.both()?;
        Some((register_operand(a)?, memory_operand(b)?))
    }

    // A port, then a register.
    fn outward(self) -> Option<(MemoryOperand, Register)>
        ensures { result ≡ outward_of self.first self.second }
    {
        let (a, b) = self.both()?;
        Some((memory_operand(a)?, register_operand(b)?))
    }

    // This and the next three stay four: a closure at each of their arms below would be no plainer.
    fn combine(self, operation: BinaryOperation) -> Option<Action>
        ensures { result ≡ combining operation self.first self.second }
    {
        let (destination, source) = self.pair()?;
        Some(Command::Combine(operation, destination, source).into())
    }

    fn compare(self, comparison: Comparison) -> Option<Action>
        ensures { result ≡ comparing comparison self.first self.second }
    {
        let (destination, source) = self.pair()?;
        Some(Command::Compare(comparison, destination, source).into())
    }

    fn alter(self, operation: UnaryOperation) -> Option<Action>
        ensures { result ≡ altering operation self.first self.second }
    {
        Some(Command::Alter(operation, self.place()?).into())
    }

    fn branch(self, condition: Condition) -> Option<Action>
        ensures { result ≡ branching condition self.first self.second }
    {
        Some(Command::Branch(condition, self.displacement()?).into())
    }

    // What the operation does with these operands, where it takes them.
    // A match, and no table of closures: an operation is data of an instruction.
    fn taken_by(self, operation: Operation) -> Option<Action>
        ensures { result ≡ action_of operation self.first self.second }
    {
        match operation {
            Operation::Nop => self.none(Command::Pass),
            Operation::Sti => self.none(Command::Enable(true)),
            Operation::Cli => self.none(Command::Enable(false)),
            Operation::Mov => {
                let (destination, source) = self.pair()?;
                Some(Command::Move(destination, source).into())
            }
            Operation::Push => Some(Command::Push(self.place()?).into()),
            Operation::Pop => Some(Command::Pop(self.place()?).into()),
            Operation::Add => self.combine(BinaryOperation::Add),
            Operation::Sub => self.combine(BinaryOperation::Sub),
            Operation::Mul => self.combine(BinaryOperation::Mul),
            Operation::Div => {
                let (destination, source) = self.pair()?;
                Some(Command::Divide(destination, source).into())
            }
            Operation::Inc => self.alter(UnaryOperation::Inc),
            Operation::Dec => self.alter(UnaryOperation::Dec),
            Operation::Cmp => self.compare(Comparison::Cmp),
            Operation::Neg => self.alter(UnaryOperation::Neg),
            Operation::And => self.combine(BinaryOperation::And),
            Operation::Or => self.combine(BinaryOperation::Or),
            Operation::Xor => self.combine(BinaryOperation::Xor),
            Operation::Test => self.compare(Comparison::Test),
            Operation::Not => self.alter(UnaryOperation::Not),
            Operation::Sal => self.combine(BinaryOperation::Sal),
            Operation::Sar => self.combine(BinaryOperation::Sar),
            Operation::Jmp => Some(Command::Jump(Address::from(self.number()?)).into()),
            Operation::Je => self.branch(Condition::Equal),
            Operation::Jne => self.branch(Condition::NotEqual),
            Operation::Jl => self.branch(Condition::Less),
            Operation::Jle => self.branch(Condition::LessOrEqual),
            Operation::Jg => self.branch(Condition::Greater),
            Operation::Jge => self.branch(Condition::GreaterOrEqual),
            Operation::Call => Some(Command::Call(Address::from(self.number()?)).into()),
            Operation::Ret => self.none(Command::Return),
            Operation::Int => Some(Command::Interrupt(self.number()?).into()),
            Operation::Iret => self.none(Command::Resume),
            Operation::In => {
                let (register, port) = self.inward()?;
                Some(Action::Input(register, port))
            }
            Operation::Out => {
                let (port, register) = self.outward()?;
                Some(Action::Output(port, register))
            }
        }
    }
}

// What an instruction does. Each has an action, since it is legal.
pub fn action_of(instruction: &Instruction) -> Action
    ensures { Some result ≡ action (parts instruction.now) }
{
    let operands = Operands {
        first: instruction.first(),
        second: instruction.second(),
    };
    operands.taken_by(instruction.operation()).unwrap()
}
