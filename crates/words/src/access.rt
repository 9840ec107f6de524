// Reading and writing the word at an address.
ghost use Rattle.std.specs.Prelude.{◌≡◌, IfOk};
ghost use Rattle.words.specs.Words.{Shows, bytes_reading, word_reading, word_verified, word_writing, word_written};

use crate::fault::WordFault;
use memory::{Readable, Store};
use quantity::{Address, Number};

// The bytes at the address and the three behind it, wrapping at 2^32.
// Here and below each byte has a line of its own, since the first that cannot be taken names the
// refusal, and the library's `try_map` does not promise that its error is the first.
pub fn read_bytes<M: Readable>(memory: &M, at: Address) -> Result<[u8; 4], WordFault>
    ensures { result ≡ bytes_reading (M.Readable.cells memory.now) at }
{
    let a = memory.read(at)?;
    let b = memory.read(at.later(1))?;
    let c = memory.read(at.later(2))?;
    let d = memory.read(at.later(3))?;
    Ok([a, b, c, d])
}

// The word of these bytes.
pub fn read_word<M: Readable>(memory: &M, at: Address) -> Result<Number, WordFault>
    ensures answers { result ≡ word_reading (M.Readable.cells memory.now) at }
    ensures shows { IfOk result (λ n. Shows (M.Readable.cells memory.now) at n.0) }
{
    let bytes = read_bytes(memory, at)?;
    Ok(Number(u32::from_le_bytes(bytes)))
}

// What a writing of the word would answer; nothing changes.
pub fn word_writable<S: Store>(store: &S, at: Address) -> Result<(), WordFault>
    ensures { result ≡ word_writing (S.Readable.cells store.now) at }
{
    store.writable(at)?;
    store.writable(at.later(1))?;
    store.writable(at.later(2))?;
    store.writable(at.later(3))?;
    Ok(())
}

// Writes a word whole. All four bytes are tested before the first is written, so a refused writing
// leaves them as they were.
pub fn write_word<S: Store>(store: &mut S, at: Address, word: Number) -> Result<(), WordFault>
    ensures answers { result ≡ word_writing (S.Readable.cells store.old) at }
    ensures after { S.Readable.cells store.new ≡ word_written (S.Readable.cells store.old) at word.0 }
{
    word_writable(store, at)?;
    let [a, b, c, d] = word.0.to_le_bytes();
    store.write(at, a)?;
    store.write(at.later(1), b)?;
    store.write(at.later(2), c)?;
    store.write(at.later(3), d)?;
    Ok(())
}

// Writes a word and reads it back: the answer is the word that was written, or the refusal of the
// writing.
#[tactic(auto, using(crate::proofs::Verifying::verifies))]
pub fn write_word_verified<S: Store>(
    store: &mut S,
    at: Address,
    word: Number,
) -> Result<Number, WordFault>
    ensures reads_back { result ≡ word_verified (S.Readable.cells store.old) at word }
    ensures after { S.Readable.cells store.new ≡ word_written (S.Readable.cells store.old) at word.0 }
{
    write_word(store, at, word)?;
    read_word(store, at)
}
