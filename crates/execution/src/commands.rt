// The commands on words: moves, arithmetic and comparisons.
ghost use Rattle.execution.specs.Commands.{altering, combining, comparing, dividing, moving, resulting, sharing};
ghost use Rattle.execution.specs.Contexts.{Plans};

use crate::planner::Planner;
use actions::action::{Place, Source};
use arithmetic::division::{Division, divide};
use arithmetic::operation::{BinaryOperation, Comparison, UnaryOperation};
use arithmetic::status::Status;
use memory::Store;
use operands::register::Register;
use processor::effect::Change;
use processor::fault::{Cause, DestinationPart};
use quantity::Number;

impl<S: Store> Planner<'_, S> {
    // The word of a result is to be kept in the destination, with its status.
    fn keep_result(&self, place: Place, computed: (Number, Status)) -> Result<Change, Cause>
        ensures { Plans S.Readable.cells self.now result (resulting place computed) }
    {
        let (word, status) = computed;
        let noted = Planner {
            processor: self.processor.with_status(status),
            ..*self
        };
        noted.keep(place, word)
    }

    // MOV.
    pub(crate) fn move_word(&self, place: Place, source: Source) -> Result<Change, Cause>
        ensures { Plans S.Readable.cells self.now result (moving place source) }
    {
        let word = self.source_value(source)?;
        self.keep(place, word)
    }

    // An operation on two words whose result is kept.
    pub(crate) fn combine(
        &self,
        operation: BinaryOperation,
        place: Place,
        source: Source,
    ) -> Result<Change, Cause>
        ensures { Plans S.Readable.cells self.now result (combining operation place source) }
    {
        let b = self.source_value(source)?;
        let a = self.word_in::<DestinationPart>(place)?;
        self.keep_result(place, operation.apply(a, b, self.processor.status))
    }

    // CMP and TEST.
    pub(crate) fn compare(
        &self,
        comparison: Comparison,
        place: Place,
        source: Source,
    ) -> Result<Change, Cause>
        ensures { Plans S.Readable.cells self.now result (comparing comparison place source) }
    {
        let b = self.source_value(source)?;
        let a = self.word_in::<DestinationPart>(place)?;
        let after = self
            .processor
            .with_status(comparison.apply(a, b, self.processor.status));
        Ok(Change::from(after))
    }

    // An operation on one word.
    pub(crate) fn alter(&self, operation: UnaryOperation, place: Place) -> Result<Change, Cause>
        ensures { Plans S.Readable.cells self.now result (altering operation place) }
    {
        let a = self.word_in::<DestinationPart>(place)?;
        self.keep_result(place, operation.apply(a, self.processor.status))
    }

    // The quotient is to be kept, and then the remainder in R0. By 0 there is neither, and a
    // destination that cannot be written is refused still.
    fn share(&self, place: Place, divided: (Option<Division>, Status)) -> Result<Change, Cause>
        ensures { Plans S.Readable.cells self.now result (sharing place divided) }
    {
        match divided {
            (Some(division), status) => {
                let done = self.keep_result(place, (division.quotient, status))?;
                let after = done
                    .processor
                    .with_register(Register::new(0), division.remainder);
                Ok(Change {
                    processor: after,
                    ..done
                })
            }
            (None, status) => {
                self.writable_place(place)?;
                Ok(Change::from(self.processor.with_status(status)))
            }
        }
    }

    // DIV.
    pub(crate) fn divide_word(&self, place: Place, source: Source) -> Result<Change, Cause>
        ensures { Plans S.Readable.cells self.now result (dividing place source) }
    {
        let b = self.source_value(source)?;
        let a = self.word_in::<DestinationPart>(place)?;
        self.share(place, divide(a, b, self.processor.status))
    }
}
