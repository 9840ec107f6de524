// Words read and tested for a part of an instruction, which the fault then names.
ghost use Rattle.std.specs.Prelude.{◌≡◌};
ghost use Rattle.execution.specs.Contexts.{blamed};
ghost use Rattle.processor.specs.Faults.{by_part};
ghost use Rattle.words.specs.Words.{word_reading, word_writing};

use memory::{Readable, Store};
use processor::fault::PartFault;
use quantity::{Address, Number};
use words::access::{read_word, word_writable};

// The word at an address.
pub(crate) fn read_part<P, M: Readable>(memory: &M, at: Address) -> Result<Number, PartFault<P>>
    ensures { result ≡ blamed by_part (word_reading (M.Readable.cells memory.now) at) }
{
    Ok(read_word(memory, at)?)
}

// Whether the word at an address may be written.
pub(crate) fn test_part<P, S: Store>(store: &S, at: Address) -> Result<(), PartFault<P>>
    ensures { result ≡ blamed by_part (word_writing (S.Readable.cells store.now) at) }
{
    Ok(word_writable(store, at)?)
}
