// Recording effects, and taking them back.
ghost use Rattle.std.specs.Prelude.{◌≡◌, length, IfOk};
ghost use Rattle.journal.specs.Stories.{back_answer, back_story, begun, forgotten, record_answer, record_story, roomy, story_of, Story};
ghost use Rattle.processor.specs.Views.{view};

use crate::commit::commit;
use crate::journaled::Journaled;
use crate::undo::undo;
use memory::Store;
use ports::Ports;
use processor::effect::Effect;
use processor::state::Processor;
use std::alloc::{AllocError, Global};

// The journal has 256 entries.
#[derive(Clone, Copy, PartialEq, Eq, Debug)]
pub struct JournalFull;

// The journal has no entry.
#[derive(Clone, Copy, PartialEq, Eq, Debug)]
pub struct JournalEmpty;

// A journal: effects are recorded in it, and taken back.
pub trait Journal {
    // The view now, and the views before each effect that was recorded.
    ghost story: { Self → Story };

    // How many entries there are.
    fn count(&self) -> usize
        ensures { result ≡ length (story self.now).past };

    // Whether there is room for one more.
    fn has_room(&self) -> bool
        ensures { result ≡ roomy (story self.now) }
    {
        self.count() < 256
    }

    // Makes an effect true, and adds its entry; without room nothing changes.
    fn record(&mut self, effect: Effect) -> Result<(), JournalFull>
        ensures answers { result ≡ record_answer (story self.old) }
        ensures after { story self.new ≡ record_story effect (story self.old) };

    // Strikes the latest entry, and takes back what it says.
    fn take_back(&mut self) -> Result<(), JournalEmpty>
        ensures answers { result ≡ back_answer (story self.old).past }
        ensures after { story self.new ≡ back_story (story self.old).past (story self.old) };

    // Empties the journal.
    fn forget(&mut self)
        ensures { story self.new ≡ forgotten (story self.old) };
}

impl<M: Store, P: Ports> Journaled<M, P> {
    // An empty journal, with room for 256 entries.
    pub fn new(heap: Global, processor: Processor, memory: M, ports: P) -> Result<Self, AllocError>
    where
        M: Drop,
        P: Drop,
        ensures story { IfOk result (λ t. story_of M.Readable.cells P.Ports.words t ≡ begun (view processor (M.Readable.cells memory) (P.Ports.words ports))) }
        ensures parts { IfOk result (λ t. t.memory ≡ memory) }
    {
        let entries = Vec::with_capacity(heap, 256)?;
        Ok(Journaled {
            memory,
            ports,
            processor,
            entries,
        })
    }
}

impl<M: Store, P: Ports> Journal for Journaled<M, P> {
    ghost story = { λ t. story_of M.Readable.cells P.Ports.words t };

    #[tactic(auto, using(crate::proofs::Telling::length_past))]
    fn count(&self) -> usize {
        self.entries.len()
    }

    #[tactic(auto, using(crate::proofs::Telling::length_past))]
    fn record(&mut self, effect: Effect) -> Result<(), JournalFull> {
        if !self.has_room() {
            return Err(JournalFull);
        }
        let entry = commit(
            &mut self.processor,
            &mut self.memory,
            &mut self.ports,
            effect,
        );
        self.entries.push_reserved(entry);
        Ok(())
    }

    fn take_back(&mut self) -> Result<(), JournalEmpty> {
        let entry = self.entries.pop().ok_or(JournalEmpty)?;
        undo(
            &mut self.processor,
            &mut self.memory,
            &mut self.ports,
            entry,
        );
        Ok(())
    }

    fn forget(&mut self) {
        self.entries.clear();
    }
}
