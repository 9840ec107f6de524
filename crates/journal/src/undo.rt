// Taking an effect back.
ghost use Rattle.std.specs.Prelude.{◌≡◌};
ghost use Rattle.journal.specs.Entries.{Undoes, restored, undone};
ghost use Rattle.processor.specs.Views.{view};

use crate::commit::send;
use crate::entry::{Entry, OldWord};
use memory::Store;
use ports::Ports;
use processor::state::Processor;

// Puts back the bytes that stood there, if any did.
fn restore<S: Store>(store: &mut S, old: Option<OldWord>)
    ensures { S.Readable.cells store.new ≡ restored old (S.Readable.cells store.old) }
{
    if let Some(word) = old {
        word.restore(store);
    }
}

// Takes an entry back: the second word first, then the first, the port and the processor. The entry
// of an effect, taken back right after the effect, leaves all as it was before. The three are borrowed
// apart, as in commit.
#[tactic(auto, using(crate::proofs::Undoing::undoes))]
pub fn undo<S: Store, P: Ports>(
    processor: &mut Processor,
    store: &mut S,
    ports: &mut P,
    entry: Entry,
)
    ensures after { let before = view processor.old (S.Readable.cells store.old) (P.Ports.words ports.old) in
        let after = view processor.new (S.Readable.cells store.new) (P.Ports.words ports.new) in
        after ≡ undone entry before }
    ensures restores { Undoes }
{
    restore(store, entry.second);
    restore(store, entry.first);
    let _ = send(ports, entry.output);
    *processor = entry.processor;
}
