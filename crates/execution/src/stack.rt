// The commands on the stack.
ghost use Rattle.std.specs.Prelude.{◌≡◌, IfOk, None};
ghost use Rattle.execution.specs.Contexts.{Plans, context_of};
ghost use Rattle.execution.specs.Stack.{calling, popped, popping, pushed, pushing, resuming, returning};

use crate::parts::{read_part, test_part};
use crate::planner::Planner;
use actions::action::Place;
use arithmetic::status::Status;
use memory::Store;
use processor::effect::{Change, StoreWrite};
use processor::fault::{Cause, SourcePart, StackPart};
use processor::state::Processor;
use quantity::{Address, Number};

impl<'a, S: Store> Planner<'a, S> {
    // The word is to be pushed.
    pub(crate) fn push_word(&self, word: Number) -> Result<Change, Cause>
        ensures does { Plans S.Readable.cells self.now result (pushed word) }
        ensures alone { IfOk result (λ c. c.second ≡ None) }
    {
        let after = self.processor.stack_lowered();
        let at = after.stack_top();
        test_part::<StackPart, S>(self.store, at)?;
        Ok(Change::storing(after, StoreWrite { at, word }))
    }

    // The word that is popped, and the processor then.
    fn pop_word(&self) -> Result<(Number, Processor), Cause>
        ensures { result ≡ popped (context_of S.Readable.cells self.now) }
    {
        let word = read_part::<StackPart, S>(self.store, self.processor.stack_top())?;
        Ok((word, self.processor.stack_raised()))
    }

    // PUSH.
    pub(crate) fn push(&self, place: Place) -> Result<Change, Cause>
        ensures { Plans S.Readable.cells self.now result (pushing place) }
    {
        let word = self.word_in::<SourcePart>(place)?;
        self.push_word(word)
    }

    // POP.
    pub(crate) fn pop(&self, place: Place) -> Result<Change, Cause>
        ensures { Plans S.Readable.cells self.now result (popping place) }
    {
        let (word, processor) = self.pop_word()?;
        let popped = Planner { processor, ..*self };
        popped.keep(place, word)
    }

    // CALL.
    pub(crate) fn call(&self, target: Address) -> Result<Change, Cause>
        ensures { Plans S.Readable.cells self.now result (calling target) }
    {
        let done = self.push_word(Number::from(self.processor.pc))?;
        Ok(Change {
            processor: done.processor.with_pc(target),
            ..done
        })
    }

    // RET.
    pub(crate) fn return_to(&self) -> Result<Change, Cause>
        ensures { Plans S.Readable.cells self.now result returning }
    {
        let (target, after) = self.pop_word()?;
        Ok(Change::from(after.with_pc(Address::from(target))))
    }

    // IRET.
    pub(crate) fn resume(&self) -> Result<Change, Cause>
        ensures { Plans S.Readable.cells self.now result resuming }
    {
        let (target, after) = self.pop_word()?;
        let returned = Planner {
            processor: after.with_pc(Address::from(target)),
            ..*self
        };
        let (word, last) = returned.pop_word()?;
        Ok(Change::from(last.with_status(Status::from(word))))
    }
}
