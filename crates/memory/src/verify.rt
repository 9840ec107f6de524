// What was written is read back, in every store.
ghost use Rattle.std.specs.Prelude.{◌≡◌, ℕ, ◌≢◌};
ghost use Rattle.memory.specs.Access.{verified};
ghost use Rattle.memory.specs.Cells.{written};

use crate::fault::StoreFault;
use crate::{Readable, Store};
use quantity::Address;

// Writes a byte and reads it back: the answer is the byte that was written, or the refusal of the
// writing. Every other address is as it was.
pub fn write_verified<S: Store>(store: &mut S, at: Address, byte: u8) -> Result<u8, StoreFault>
    ensures reads_back { result ≡ verified (S.Readable.cells store.old at.0) byte at }
    ensures after { S.Readable.cells store.new ≡ written (S.Readable.cells store.old) at.0 byte }
    ensures others { (q : ℕ) → (q ≢ at.0) → S.Readable.cells store.new q ≡ S.Readable.cells store.old q }
{
    store.write(at, byte)?;
    store.read(at)
}
