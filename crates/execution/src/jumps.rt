// The conditional jumps.
ghost use Rattle.std.specs.Prelude.{◌≡◌};
ghost use Rattle.execution.specs.Jumps.{branched, holds};

use crate::planner::Planner;
use actions::action::Condition;
use arithmetic::status::Status;
use processor::state::Processor;
use quantity::Displacement;

// Whether a condition holds of the status.
fn is_met(condition: Condition, status: Status) -> bool
    ensures { result ≡ holds condition status }
{
    match condition {
        Condition::Equal => status.zero,
        Condition::NotEqual => !status.zero,
        Condition::Less => status.sign != status.overflow,
        Condition::LessOrEqual => status.zero || status.sign != status.overflow,
        Condition::Greater => !status.zero && status.sign == status.overflow,
        Condition::GreaterOrEqual => status.sign == status.overflow,
    }
}

impl<S> Planner<'_, S> {
    // The processor with PC moved, where the condition holds.
    pub(crate) fn branch(&self, condition: Condition, by: Displacement) -> Processor
        ensures { result ≡ branched self.now.processor condition by }
    {
        let processor = self.processor;
        if is_met(condition, processor.status) {
            processor.with_pc(processor.pc.displaced(by))
        } else {
            processor
        }
    }
}
