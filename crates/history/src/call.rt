// A call on a box, and what it is answered.
ghost use Rattle.std.specs.Prelude.{◌≡◌};
ghost use Rattle.history.specs.declared.call.Refusal.TheVariants as refusal;

use cisca::instruction::Instruction;
use machine::fault::CallFault;
use machine::machine::look::{Look, Shown};
use machine::machine::step::Stepped;
use processor::fault::StepFault;
use quantity::{Address, Number, Port};

// A call, as a value that owns its program.
#[derive(PartialEq, Eq, Debug, Drop)]
pub enum Call {
    Load(Address, Vec<Instruction>),
    Step,
    SetWord(Address, Number),
    SetPort(Port, Number),
    Request(u8),
    Release,
    Back,
    Look(Look),
}

// What is answered to a call that is taken.
#[derive(Clone, Copy, PartialEq, Eq, Debug)]
pub enum Outcome {
    Done,
    Stepped(Stepped),
    Shown(Shown),
}

// And to one that is refused.
#[derive(Clone, Copy, PartialEq, Eq, Debug)]
pub enum Refusal {
    Call(CallFault),
    Step(StepFault),
}

// By hand, both of them: the From that a derive writes has no contract, and the clauses of a call name what `?` makes.
impl From<CallFault> for Refusal {
    ghost from_gives = { λ x y. y ≡ refusal.Call x };

    fn from(fault: CallFault) -> Refusal {
        Refusal::Call(fault)
    }
}

impl From<StepFault> for Refusal {
    ghost from_gives = { λ x y. y ≡ refusal.Step x };

    fn from(fault: StepFault) -> Refusal {
        Refusal::Step(fault)
    }
}
