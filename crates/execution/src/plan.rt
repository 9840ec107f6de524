// What one instruction does, as an effect or a fault. Nothing is changed yet.
ghost use Rattle.std.specs.Prelude.{◌≡◌};
ghost use Rattle.execution.specs.Contexts.{Plans};
ghost use Rattle.execution.specs.Executions.{commanded, delivered, executed, next_address, performed};
ghost use Rattle.processor.specs.Views.{effected, view};

use crate::planner::Planner;
use actions::action::{Action, Command};
use actions::taking::action_of;
use arithmetic::status::Status;
use cisca::instruction::Instruction;
use codec::writer::encoded_length;
use memory::Store;
use ports::Ports;
use processor::effect::{Change, Effect};
use processor::fault::{Cause, StepFault};
use processor::interrupt::InterruptIndex;
use processor::state::Processor;
use quantity::Address;

impl<S: Store> Planner<'_, S> {
    // What a command does. A match, and no table of closures: commands differ in what they take.
    fn command(&self, command: Command) -> Result<Change, Cause>
        ensures { Plans S.Readable.cells self.now result (commanded command) }
    {
        let processor = self.processor;
        match command {
            Command::Pass => Ok(Change::from(processor)),
            Command::Enable(enabled) => {
                let status = Status {
                    enabled,
                    ..processor.status
                };
                Ok(Change::from(processor.with_status(status)))
            }
            Command::Move(place, source) => self.move_word(place, source),
            Command::Push(place) => self.push(place),
            Command::Pop(place) => self.pop(place),
            Command::Combine(operation, place, source) => self.combine(operation, place, source),
            Command::Divide(place, source) => self.divide_word(place, source),
            Command::Alter(operation, place) => self.alter(operation, place),
            Command::Compare(comparison, place, source) => self.compare(comparison, place, source),
            Command::Jump(target) => Ok(Change::from(processor.with_pc(target))),
            Command::Branch(condition, by) => Ok(Change::from(self.branch(condition, by))),
            Command::Call(target) => self.call(target),
            Command::Return => self.return_to(),
            Command::Interrupt(number) => self.serve(number),
            Command::Resume => self.resume(),
        }
    }

    // What an action does.
    fn perform<P: Ports>(&self, ports: &P, action: Action) -> Result<Effect, Cause>
        ensures { let before = view self.now.processor (S.Readable.cells self.now.store.now) (P.Ports.words ports.now) in effected result before ≡ performed action before }
    {
        match action {
            Action::Inner(command) => Ok(Effect::from(self.command(command)?)),
            Action::Input(register, port) => {
                let after = self.input(ports, register, port)?;
                Ok(Effect::from(Change::from(after)))
            }
            Action::Output(port, register) => {
                let write = self.output(ports, port, register)?;
                Ok(Effect {
                    change: Change::from(self.processor),
                    output: Some(write),
                })
            }
        }
    }
}

// PCup: the address of the next instruction.
fn next_address(instruction: &Instruction, processor: Processor) -> Address
    ensures { result ≡ next_address instruction.now processor }
{
    processor.pc.later(encoded_length(instruction) as u32)
}

// What the instruction does, or the fault that comes first. Committing the effect makes of the
// processor, the store and the ports just what the definition of the instruction says.
pub fn plan<S: Store, P: Ports>(
    processor: Processor,
    instruction: &Instruction,
    store: &S,
    ports: &P,
) -> Result<Effect, StepFault>
    ensures { let before = view processor (S.Readable.cells store.now) (P.Ports.words ports.now) in effected result before ≡ executed instruction.now before }
{
    let planner = Planner {
        store,
        processor: processor.with_pc(next_address(instruction, processor)),
    };
    planner
        .perform(ports, action_of(instruction))
        .map_err(|cause| StepFault {
            cause,
            pc: processor.pc,
        })
}

// What the delivery of an interrupt does.
pub fn plan_delivery<S: Store, P: Ports>(
    processor: Processor,
    index: InterruptIndex,
    store: &S,
    ports: &P,
) -> Result<Effect, StepFault>
    ensures { let before = view processor (S.Readable.cells store.now) (P.Ports.words ports.now) in effected result before ≡ delivered index.value before }
{
    let planner = Planner { store, processor };
    planner
        .deliver(index)
        .map(Effect::from)
        .map_err(|cause| StepFault {
            cause,
            pc: processor.pc,
        })
}
