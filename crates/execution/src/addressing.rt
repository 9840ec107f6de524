// The words that operands name.
ghost use Rattle.std.specs.Prelude.{◌≡◌};
ghost use Rattle.execution.specs.Contexts.{Plans, blamed, context_of, effective, kept, place_word, source_word, writable};
ghost use Rattle.processor.specs.Faults.{by_part};

use crate::parts::{read_part, test_part};
use crate::planner::Planner;
use actions::action::{MemoryOperand, Place, Source};
use memory::Store;
use processor::effect::{Change, StoreWrite};
use processor::fault::{Cause, DestinationPart, PartFault, SourcePart};
use quantity::{Address, Number};

impl<S: Store> Planner<'_, S> {
    // The effective address: where a memory operand lies.
    pub(crate) fn effective_address(&self, operand: MemoryOperand) -> Address
        ensures { result ≡ effective self.now.processor operand }
    {
        match operand {
            MemoryOperand::Direct(at) => at,
            MemoryOperand::Indirect(register) => Address::from(self.processor.register(register)),
            MemoryOperand::Relative(register, by) => {
                Address::from(self.processor.register(register)).displaced(by)
            }
            MemoryOperand::Indexed(at, register) => at.later(self.processor.register(register).0),
        }
    }

    // The word in a place, for a part of the instruction.
    pub(crate) fn word_in<P>(&self, place: Place) -> Result<Number, PartFault<P>>
        ensures { result ≡ blamed by_part (place_word place (context_of S.Readable.cells self.now)) }
    {
        match place {
            Place::Register(register) => Ok(self.processor.register(register)),
            Place::Memory(operand) => read_part(self.store, self.effective_address(operand)),
        }
    }

    // The word of a source operand.
    pub(crate) fn source_value(&self, source: Source) -> Result<Number, Cause>
        ensures { result ≡ source_word source (context_of S.Readable.cells self.now) }
    {
        match source {
            Source::Immediate(number) => Ok(number),
            Source::Place(place) => Ok(self.word_in::<SourcePart>(place)?),
        }
    }

    // Whether a destination may be written.
    pub(crate) fn writable_place(&self, place: Place) -> Result<(), Cause>
        ensures { result ≡ writable place (context_of S.Readable.cells self.now) }
    {
        match place {
            Place::Register(_) => Ok(()),
            Place::Memory(operand) => Ok(test_part::<DestinationPart, S>(
                self.store,
                self.effective_address(operand),
            )?),
        }
    }

    // The change that keeps a word in a destination.
    pub(crate) fn keep(&self, place: Place, word: Number) -> Result<Change, Cause>
        ensures { Plans S.Readable.cells self.now result (kept place word) }
    {
        match place {
            Place::Register(register) => {
                Ok(Change::from(self.processor.with_register(register, word)))
            }
            Place::Memory(operand) => {
                let at = self.effective_address(operand);
                test_part::<DestinationPart, S>(self.store, at)?;
                Ok(Change::storing(self.processor, StoreWrite { at, word }))
            }
        }
    }
}
