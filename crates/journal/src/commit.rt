// Making an effect true.
ghost use Rattle.std.specs.Prelude.{◌≡◌};
ghost use Rattle.journal.specs.Entries.{entry_of, old_at, old_port};
ghost use Rattle.processor.specs.Views.{applied, sent, stored, view};

use crate::entry::{Entry, OldWord};
use memory::Store;
use ports::Ports;
use processor::effect::{Effect, PortWrite, StoreWrite};
use processor::state::Processor;
use words::access::write_word;

// Stores the word, where it can be, and gives what stood there.
fn replace<S: Store>(store: &mut S, write: Option<StoreWrite>) -> Option<OldWord>
    ensures old { result ≡ old_at (S.Readable.cells store.old) write }
    ensures after { S.Readable.cells store.new ≡ stored write (S.Readable.cells store.old) }
{
    let StoreWrite { at, word } = write?;
    let old = OldWord::read(store, at);
    let _ = write_word(store, at, word);
    old
}

// Sends the word, where the port is there, and gives the word that was there.
pub(crate) fn send<P: Ports>(ports: &mut P, write: Option<PortWrite>) -> Option<PortWrite>
    ensures old { result ≡ old_port (P.Ports.words ports.old) write }
    ensures after { P.Ports.words ports.new ≡ sent write (P.Ports.words ports.old) }
{
    let PortWrite { port, word } = write?;
    let old = ports.get(port).ok().map(|word| PortWrite { port, word });
    let _ = ports.set(port, word);
    old
}

// Makes an effect true of a processor, a store and a bank, and gives the entry that takes it back.
// A word that cannot be stored or sent changes nothing.
// The three are borrowed apart: callers keep them as they like, and a struct of three borrows would be made at each call only to be taken apart in it.
pub fn commit<S: Store, P: Ports>(
    processor: &mut Processor,
    store: &mut S,
    ports: &mut P,
    effect: Effect,
) -> Entry
    ensures entry { let before = view processor.old (S.Readable.cells store.old) (P.Ports.words ports.old) in result ≡ entry_of effect before }
    ensures after { let before = view processor.old (S.Readable.cells store.old) (P.Ports.words ports.old) in
        let after = view processor.new (S.Readable.cells store.new) (P.Ports.words ports.new) in
        after ≡ applied effect before }
{
    let before = *processor;
    let first = replace(store, effect.change.first);
    let second = replace(store, effect.change.second);
    let output = send(ports, effect.output);
    *processor = effect.change.processor;
    Entry {
        processor: before,
        first,
        second,
        output,
    }
}
