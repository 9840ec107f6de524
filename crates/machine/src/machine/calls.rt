// The calls of a saw box, on a machine.
ghost use Rattle.machine.specs.Machines.{state_of};

use crate::fault::CallFault;
use crate::machine::Machine;
use crate::machine::look::{Look, Shown};
use crate::machine::step::Stepped;
use crate::saw_box::SawBox;
use cisca::instruction::Instruction;
use journal::journaled::calls::Journal;
use memory::{Readable, Store};
use ports::Ports;
use processor::effect::{Change, Effect, PortWrite, StoreWrite};
use processor::fault::{Cause, StepFault};
use processor::interrupt::InterruptIndex;
use processor::state::Processor;
use quantity::{Address, Number, Port};
use words::access::word_writable;

impl<S: Store, P: Ports> SawBox for Machine<S, P> {
    ghost state = { λ m. state_of S.Readable.cells P.Ports.words m };

    fn load(&mut self, at: Address, program: &[Instruction]) -> Result<(), CallFault> {
        let length = self.admit(at, program)?;
        self.install(at, program, length);
        Ok(())
    }

    fn step(&mut self) -> Result<Stepped, StepFault> {
        if self.layout.is_empty() {
            return Err(self.refusal(Cause::NoProgram));
        }
        if !self.system.has_room() {
            return Err(self.refusal(Cause::JournalFull));
        }
        let (stepped, effect) = self.planned()?;
        self.record(effect);
        Ok(stepped)
    }

    fn set_word(&mut self, at: Address, word: Number) -> Result<(), CallFault> {
        self.ready()?;
        word_writable(&self.system.memory, at)?;
        let write = StoreWrite { at, word };
        self.record(Effect::from(Change::storing(self.system.processor, write)));
        Ok(())
    }

    fn set_port(&mut self, port: Port, word: Number) -> Result<(), CallFault> {
        self.ready()?;
        self.system.ports.get(port)?;
        self.record(Effect {
            output: Some(PortWrite { port, word }),
            ..Effect::from(Change::from(self.system.processor))
        });
        Ok(())
    }

    fn request(&mut self, index: u8) -> Result<(), CallFault> {
        self.ready()?;
        let index = InterruptIndex::try_from(u32::from(index))?;
        let processor = self.system.processor;
        if processor.waiting.is_some() {
            return Err(CallFault::Waiting);
        }
        self.record(Effect::from(Change::from(Processor {
            waiting: Some(index),
            ..processor
        })));
        Ok(())
    }

    fn release(&mut self) -> Result<(), CallFault> {
        self.loaded()?;
        self.system.forget();
        Ok(())
    }

    fn back(&mut self) -> Result<(), CallFault> {
        self.loaded()?;
        self.system.take_back()?;
        Ok(())
    }

    fn look(&self, what: Look) -> Result<Shown, CallFault> {
        let processor = self.system.processor;
        Ok(match what {
            Look::Register(register) => Shown::Word(processor.register(register)),
            Look::Pc => Shown::Address(processor.pc),
            Look::Status => Shown::Status {
                bits: processor.status,
                waiting: processor.waiting.is_some(),
            },
            Look::Index => Shown::Index(processor.waiting.map_or(0, |index| index.value())),
            Look::Count => Shown::Count(self.system.count()),
            Look::Byte(at) => Shown::Byte(self.system.memory.read(at)?),
            Look::Port(port) => Shown::Word(self.system.ports.get(port)?),
        })
    }
}
