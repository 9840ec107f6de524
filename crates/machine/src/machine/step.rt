// One step.
ghost use Rattle.std.specs.Prelude.{◌≡◌};
ghost use Rattle.machine.specs.Machines.{state_of};
ghost use Rattle.machine.specs.States.{present};
ghost use Rattle.machine.specs.Steps.{chosen, cisca, found_in, planned_outcome, refused};
ghost use Rattle.processor.specs.Processors.{due};

use crate::machine::Machine;
use cisca::instruction::Instruction;
use execution::plan::{plan, plan_delivery};
use memory::Store;
use ports::Ports;
use processor::effect::Effect;
use processor::fault::{Cause, StepFault};
use processor::interrupt::InterruptIndex;
use quantity::Address;

// What a step did: the instruction that starts at an address, or the delivery of an interrupt.
#[derive(Clone, Copy, PartialEq, Eq, Debug)]
pub enum Stepped {
    Executed(Address, Instruction),
    Delivered(InterruptIndex),
}

impl<S: Store, P: Ports> Machine<S, P> {
    // A refusal of the step, with PC as it stands.
    pub(super) fn refusal(&self, cause: Cause) -> StepFault
        ensures { result ≡ refused cause (state_of S.Readable.cells P.Ports.words self.now) }
    {
        StepFault {
            cause,
            pc: self.system.processor.pc,
        }
    }

    // The instruction that starts at PC.
    fn found(&self) -> Option<Instruction>
        ensures { result ≡ found_in (state_of S.Readable.cells P.Ports.words self.now).program (present (state_of S.Readable.cells P.Ports.words self.now)).processor.pc }
    {
        let offset = self.system.processor.pc.0.checked_sub(self.base.0)?;
        self.layout.starting(offset as usize)
    }

    // What the step will do, and its effect; or the fault that comes first.
    pub(super) fn planned(&self) -> Result<(Stepped, Effect), StepFault>
        ensures { planned_outcome result (present (state_of S.Readable.cells P.Ports.words self.now)) ≡ chosen cisca (due (present (state_of S.Readable.cells P.Ports.words self.now)).processor) (state_of S.Readable.cells P.Ports.words self.now) }
    {
        let processor = self.system.processor;
        if let Some(index) = processor.due() {
            let effect = plan_delivery(processor, index, &self.system.memory, &self.system.ports)?;
            return Ok((Stepped::Delivered(index), effect));
        }
        let instruction = self.found().ok_or(self.refusal(Cause::NoStart))?;
        let effect = plan(
            processor,
            &instruction,
            &self.system.memory,
            &self.system.ports,
        )?;
        Ok((Stepped::Executed(processor.pc, instruction), effect))
    }
}
