// One call done on a box.
ghost use Rattle.std.specs.Prelude.{◌≡◌};
ghost use Rattle.history.specs.Coded.{call_of};
ghost use Rattle.history.specs.Runs.{after, answered};
ghost use Rattle.machine.specs.Steps.{cisca};

use crate::call::{Call, Outcome, Refusal};
use machine::saw_box::SawBox;

// Does a call, and gives its answer.
// A match: the laws are of calls as data, which can be compared and counted, as closures can't.
pub fn perform<B: SawBox>(machine: &mut B, call: &Call) -> Result<Outcome, Refusal>
    ensures answers { result ≡ answered cisca (call_of call.now) (B.state machine.old) }
    ensures after { B.state machine.new ≡ after cisca (call_of call.now) (B.state machine.old) }
{
    match call {
        Call::Load(at, program) => machine.load(*at, program)?,
        Call::Step => return Ok(Outcome::Stepped(machine.step()?)),
        Call::SetWord(at, word) => machine.set_word(*at, *word)?,
        Call::SetPort(port, word) => machine.set_port(*port, *word)?,
        Call::Request(index) => machine.request(*index)?,
        Call::Release => machine.release()?,
        Call::Back => machine.back()?,
        Call::Look(what) => return Ok(Outcome::Shown(machine.look(*what)?)),
    }
    Ok(Outcome::Done)
}
