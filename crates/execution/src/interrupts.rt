// INT and the delivery of an interrupt.
ghost use Rattle.std.specs.Prelude.{◌≡◌, None};
ghost use Rattle.execution.specs.Contexts.{Plans, blamed, context, outcome};
ghost use Rattle.execution.specs.Interrupts.{delivering, interrupting, serving};
ghost use Rattle.execution.specs.Stack.{pushed};
ghost use Rattle.processor.specs.Faults.{by_stack};
ghost use Rattle.processor.specs.Views.{changed, stored};
ghost use Rattle.words.specs.Words.{word_writing};

use crate::parts::{read_part, test_part};
use crate::pending::Pending;
use crate::planner::Planner;
use memory::Store;
use processor::effect::{Change, StoreWrite};
use processor::fault::{Cause, StackFault, VectorPart};
use processor::interrupt::InterruptIndex;
use processor::state::Processor;
use quantity::{Address, Number};

impl<S: Store> Planner<'_, S> {
    // Whether a word of the stack may be written once another is stored: a stored word changes no
    // mark.
    #[tactic(auto, using(crate::proofs::Covering::stored_marked))]
    fn test_over(&self, write: Option<StoreWrite>, at: Address) -> Result<(), StackFault>
        ensures { result ≡ blamed by_stack (word_writing (stored write (S.Readable.cells self.now.store.now)) at) }
    {
        test_part(self.store, at)
    }

    // A second word is to be pushed, once the first is stored.
    fn push_second(&self, done: Change, word: Number) -> Result<Change, Cause>
        requires { done.second ≡ None }
        ensures { outcome result (S.Readable.cells self.now.store.now) ≡ pushed word (context done.processor (changed done (S.Readable.cells self.now.store.now))) }
    {
        let after = done.processor.stack_lowered();
        let at = after.stack_top();
        self.test_over(done.first, at)?;
        Ok(Change {
            processor: after,
            first: done.first,
            second: Some(StoreWrite { at, word }),
        })
    }

    // The status word and PC are pushed, and PC becomes the vector, which is read once both words
    // are stored.
    fn interrupt(&self, index: InterruptIndex) -> Result<Change, Cause>
        ensures { Plans S.Readable.cells self.now result (interrupting index.value) }
    {
        let once = self.push_word(Number::from(self.processor.status))?;
        let twice = self.push_second(once, Number::from(once.processor.pc))?;
        let memory = Pending {
            below: self.store,
            change: twice,
        };
        let at = Address(4 * u32::from(index.value()));
        let vector = read_part::<VectorPart, _>(&memory, at)?;
        Ok(Change {
            processor: twice.processor.with_pc(Address::from(vector)),
            ..twice
        })
    }

    // INT.
    pub(crate) fn serve(&self, number: Number) -> Result<Change, Cause>
        ensures { Plans S.Readable.cells self.now result (serving number) }
    {
        let index = InterruptIndex::try_from(number.0)?;
        self.interrupt(index)
    }

    // The delivery of an interrupt, which then waits no more.
    pub(crate) fn deliver(&self, index: InterruptIndex) -> Result<Change, Cause>
        ensures { Plans S.Readable.cells self.now result (delivering index.value) }
    {
        let quiet = Planner {
            processor: Processor {
                waiting: None,
                ..self.processor
            },
            ..*self
        };
        quiet.interrupt(index)
    }
}
