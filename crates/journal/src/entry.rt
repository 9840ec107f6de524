// What takes an effect back.
ghost use Rattle.std.specs.Prelude.{◌≡◌, Some};
ghost use Rattle.journal.specs.Entries.{old_word, restored};

use memory::{Readable, Store};
use processor::effect::PortWrite;
use processor::state::Processor;
use quantity::Address;
use words::access::read_bytes;

// The four bytes that stood at an address.
// A StoreWrite would be no equal: a number keeps eight bits of each byte, and `Undoes` is a law of every view, whatever its cells hold.
#[derive(Clone, Copy, PartialEq, Eq, Debug)]
pub struct OldWord {
    pub at: Address,
    pub bytes: [u8; 4],
}

impl OldWord {
    // The four bytes from an address on, where there are four.
    pub(crate) fn read<M: Readable>(memory: &M, at: Address) -> Option<OldWord>
        ensures { result ≡ old_word (M.Readable.cells memory.now) at }
    {
        let bytes = read_bytes(memory, at).ok()?;
        Some(OldWord { at, bytes })
    }

    // Puts the bytes back, each where it can be written.
    pub(crate) fn restore<S: Store>(self, store: &mut S)
        ensures { S.Readable.cells store.new ≡ restored (Some self) (S.Readable.cells store.old) }
    {
        let OldWord {
            at,
            bytes: [a, b, c, d],
        } = self;
        let _ = store.write(at, a);
        let _ = store.write(at.later(1), b);
        let _ = store.write(at.later(2), c);
        let _ = store.write(at.later(3), d);
    }
}

// The processor as it was, and what stood where the effect wrote. What the second word overwrote is
// as it stood once the first was stored, so the second is put back first.
#[derive(Clone, Copy, PartialEq, Eq, Debug)]
pub struct Entry {
    pub processor: Processor,
    pub first: Option<OldWord>,
    pub second: Option<OldWord>,
    pub output: Option<PortWrite>,
}
