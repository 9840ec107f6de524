// A table of the ports 0 to 63.
ghost use Rattle.std.specs.Prelude.{◌≡◌, replicate};
ghost use Rattle.ports.specs.Banks.{finding, tabled};
ghost use Rattle.quantity.specs.declared.Number.{Number};

use crate::Ports;
use crate::fault::PortFault;
use quantity::{Number, Port};

#[derive(Drop)]
pub struct Table {
    words: [Number; 64],
}

impl Table {
    // A table whose words are all 0.
    pub fn new() -> Table
        ensures { result.words ≡ replicate 64 (record { 0 = 0 }) }
    {
        Table {
            words: [Number(0); 64],
        }
    }
}

// Which of the words is a port's, or a refusal where the table has no such port. An index, for what an
// array holds once a word that `get_mut` lent of it is written was not proved.
fn index_of(port: Port) -> Result<usize, PortFault>
    ensures { result ≡ finding port }
{
    if port.0 < 64 {
        Ok(port.0 as usize)
    } else {
        Err(PortFault::Absent(port))
    }
}

impl Ports for Table {
    ghost words = { λ s. tabled s.words };

    fn get(&self, port: Port) -> Result<Number, PortFault> {
        let index = index_of(port)?;
        Ok(self.words[index])
    }

    fn set(&mut self, port: Port, word: Number) -> Result<(), PortFault> {
        let index = index_of(port)?;
        self.words[index] = word;
        Ok(())
    }
}
