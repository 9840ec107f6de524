// Port banks: for each port number, a word or nothing.
#![tactic(auto)]

ghost use Rattle.std.specs.Prelude.{◌≡◌, ℕ, Option};
ghost use Rattle.ports.specs.Banks.{getting, replaced, setting};

use fault::PortFault;
use quantity::{Number, Port};

pub mod fault;
pub mod mapped;
pub mod port_space;
pub mod table;

pub trait Ports {
    // The word at each port, or nothing.
    ghost words: { Self → ℕ → Option ℕ };

    // The word at a port, or a refusal where there is none.
    fn get(&self, port: Port) -> Result<Number, PortFault>
        ensures { result ≡ getting (words self.now port.0) port };

    // Replaces the word at a port, and no other; refuses where there is none.
    fn set(&mut self, port: Port, word: Number) -> Result<(), PortFault>
        ensures answers { result ≡ setting (words self.old port.0) port }
        ensures after { words self.new ≡ replaced (words self.old) port.0 word.0 };
}
