// What a step will change: found by reading alone, and made true afterwards.
ghost use Rattle.std.specs.Prelude.{◌≡◌};
ghost use Rattle.processor.specs.Effects.{silent, storing, turning};

use crate::state::Processor;
use quantity::{Address, Number, Port};

// A word that is to be stored.
// Not one type with PortWrite over the place: the fields' names say what each is.
#[derive(Clone, Copy, PartialEq, Eq, Debug)]
pub struct StoreWrite {
    pub at: Address,
    pub word: Number,
}

// A word that is to be sent to a port.
#[derive(Clone, Copy, PartialEq, Eq, Debug)]
pub struct PortWrite {
    pub port: Port,
    pub word: Number,
}

// The processor after, and at most two words to store, the second after the first.
#[derive(Clone, Copy, PartialEq, Eq, Debug)]
pub struct Change {
    pub processor: Processor,
    pub first: Option<StoreWrite>,
    pub second: Option<StoreWrite>,
}

// A change, and at most one word for a port.
#[derive(Clone, Copy, PartialEq, Eq, Debug)]
pub struct Effect {
    pub change: Change,
    pub output: Option<PortWrite>,
}

impl Change {
    // The processor after, and a word to store.
    pub fn storing(processor: Processor, write: StoreWrite) -> Change
        ensures { result ≡ storing processor write }
    {
        Change {
            first: Some(write),
            ..Change::from(processor)
        }
    }
}

// A change of the processor alone.
impl From<Processor> for Change {
    ghost from_gives = { λ x y. y ≡ turning x };

    fn from(processor: Processor) -> Change {
        Change {
            processor,
            first: None,
            second: None,
        }
    }
}

// A change, and no word for a port.
impl From<Change> for Effect {
    ghost from_gives = { λ x y. y ≡ silent x };

    fn from(change: Change) -> Effect {
        Effect {
            change,
            output: None,
        }
    }
}
