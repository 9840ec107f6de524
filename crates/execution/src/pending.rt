// A store as it will be once the words of a change are stored: the vector is read through it, since
// what an interrupt pushes may overwrite it.
ghost use Rattle.std.specs.Prelude.{◌≡◌};
ghost use Rattle.execution.specs.Pending.{byte_in, pending_byte};
ghost use Rattle.processor.specs.Views.{changed};

use memory::fault::StoreFault;
use memory::{Readable, Store};
use processor::effect::{Change, StoreWrite};
use quantity::Address;
use words::access::word_writable;

#[derive(Drop)]
pub struct Pending<'a, S> {
    pub below: &'a S,
    pub change: Change,
}

// The byte of the word at an address, if it has one there.
fn byte_in(write: StoreWrite, at: Address) -> Option<u8>
    ensures { result ≡ byte_in write at.0 }
{
    let offset = at.0.wrapping_sub(write.at.0);
    write.word.0.to_le_bytes().get(offset as usize).copied()
}

impl<S: Store> Pending<'_, S> {
    // The byte that a word will show at an address, where it can be stored.
    fn pending_byte(&self, write: Option<StoreWrite>, at: Address) -> Option<u8>
        ensures { result ≡ pending_byte write (S.Readable.cells self.now.below.now) at.0 }
    {
        let write = write?;
        word_writable(self.below, write.at).ok()?;
        byte_in(write, at)
    }
}

impl<S: Store> Readable for Pending<'_, S> {
    ghost cells = { λ s. changed s.change (S.Readable.cells s.below.now) };

    // The second word lies over the first.
    #[tactic(auto, using(crate::proofs::Covering::both_cover))]
    fn read(&self, at: Address) -> Result<u8, StoreFault> {
        if let Some(byte) = self.pending_byte(self.change.second, at) {
            Ok(byte)
        } else if let Some(byte) = self.pending_byte(self.change.first, at) {
            Ok(byte)
        } else {
            self.below.read(at)
        }
    }
}
