// Whether a call may be made, and the recording of one.
// Private calls write state_of out, here and in load and step: a second trait for its short name alone would be no plainer.
ghost use Rattle.std.specs.Prelude.{◌≡◌, Ok};
ghost use Rattle.machine.specs.Machines.{state_of};
ghost use Rattle.machine.specs.States.{loaded as loaded_said, moved, present, ready as ready_said};
ghost use Rattle.processor.specs.Views.{applied};

use crate::fault::CallFault;
use crate::machine::Machine;
use journal::journaled::calls::Journal;
use memory::Store;
use ports::Ports;
use processor::effect::Effect;

impl<S: Store, P: Ports> Machine<S, P> {
    // Whether a program is loaded.
    pub(super) fn loaded(&self) -> Result<(), CallFault>
        ensures { result ≡ loaded_said (state_of S.Readable.cells P.Ports.words self.now) }
    {
        if self.layout.is_empty() {
            Err(CallFault::NoProgram)
        } else {
            Ok(())
        }
    }

    // Whether a journaled call may be made.
    pub(super) fn ready(&self) -> Result<(), CallFault>
        ensures { result ≡ ready_said (state_of S.Readable.cells P.Ports.words self.now) }
    {
        self.loaded()?;
        if self.system.has_room() {
            Ok(())
        } else {
            Err(CallFault::JournalFull)
        }
    }

    // Makes an effect true, with an entry in the journal.
    pub(super) fn record(&mut self, effect: Effect)
        requires { ready_said (state_of S.Readable.cells P.Ports.words self.old) ≡ Ok tt }
        ensures { state_of S.Readable.cells P.Ports.words self.new ≡ moved (applied effect (present (state_of S.Readable.cells P.Ports.words self.old))) (state_of S.Readable.cells P.Ports.words self.old) }
    {
        self.system.record(effect).unwrap();
    }
}
