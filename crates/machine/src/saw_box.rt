// What a saw box does.
ghost use Rattle.std.specs.Prelude.{◌≡◌};
ghost use Rattle.machine.specs.Calls.{back_made, back_said, look_said, release_made, request_made, request_said, set_port_made, set_port_said, set_word_made, set_word_said};
ghost use Rattle.machine.specs.Loads.{load_made, load_said};
ghost use Rattle.machine.specs.States.{State, loaded};
ghost use Rattle.machine.specs.Steps.{cisca, step_made, step_said};

use crate::fault::CallFault;
use crate::machine::look::{Look, Shown};
use crate::machine::step::Stepped;
use cisca::instruction::Instruction;
use processor::fault::StepFault;
use quantity::{Address, Number, Port};

// The calls on a box. Each says what it answers, and what it leaves, by the state that it finds; a
// call that is refused changes nothing.
pub trait SawBox {
    // The program, and the view now with those before it.
    ghost state: { Self → State };

    // Loads a program at an address.
    fn load(&mut self, at: Address, program: &[Instruction]) -> Result<(), CallFault>
        ensures answers { result ≡ load_said at program.now (state self.old) }
        ensures after { state self.new ≡ load_made at program.now (state self.old) };

    // Delivers the interrupt that is due, or does the instruction at PC.
    fn step(&mut self) -> Result<Stepped, StepFault>
        ensures answers { result ≡ step_said cisca (state self.old) }
        ensures after { state self.new ≡ step_made cisca (state self.old) };

    // Writes a word to the store.
    fn set_word(&mut self, at: Address, word: Number) -> Result<(), CallFault>
        ensures answers { result ≡ set_word_said at (state self.old) }
        ensures after { state self.new ≡ set_word_made at word (state self.old) };

    // Writes a word to a port.
    fn set_port(&mut self, port: Port, word: Number) -> Result<(), CallFault>
        ensures answers { result ≡ set_port_said port (state self.old) }
        ensures after { state self.new ≡ set_port_made port word (state self.old) };

    // Lets an interrupt wait.
    fn request(&mut self, index: u8) -> Result<(), CallFault>
        ensures answers { result ≡ request_said index (state self.old) }
        ensures after { state self.new ≡ request_made index (state self.old) };

    // Empties the journal: what was done stays done.
    fn release(&mut self) -> Result<(), CallFault>
        ensures answers { result ≡ loaded (state self.old) }
        ensures after { state self.new ≡ release_made (state self.old) };

    // Strikes the latest entry of the journal, and restores what that call changed.
    fn back(&mut self) -> Result<(), CallFault>
        ensures answers { result ≡ back_said (state self.old) }
        ensures after { state self.new ≡ back_made (state self.old) };

    // Shows a part of the box; nothing changes.
    fn look(&self, what: Look) -> Result<Shown, CallFault>
        ensures { result ≡ look_said what (state self.now) };
}
