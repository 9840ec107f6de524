// Why a call other than a step is refused.
ghost use Rattle.std.specs.Prelude.{◌≡◌};
ghost use Rattle.machine.specs.Faults.{address_of, number_of, port_of};
ghost use Rattle.machine.specs.declared.fault.CallFault.TheVariants as fault;

use codec::fault::WriteFault;
use journal::journaled::calls::JournalEmpty;
use memory::fault::StoreFault;
use ports::fault::PortFault;
use processor::interrupt::making::IndexFault;
use quantity::{Address, Port};
use words::fault::WordFault;

#[derive(Clone, Copy, PartialEq, Eq, Debug)]
pub enum CallFault {
    // No program is loaded.
    NoProgram,
    // A program is loaded already.
    Loaded,
    // The list has no instruction.
    Empty,
    // The program has more than 4,096 bytes.
    TooLong,
    // The program would not lie within 00000100h to FFFEFFFFh.
    OutOfRange,
    // No interrupt has this index.
    Index,
    // An interrupt waits already.
    Waiting,
    // The journal has 256 entries.
    JournalFull,
    // The journal has no entry.
    NoEntry,
    // A byte of the program range cannot be written, or a byte that is looked at is not there.
    Byte(StoreFault),
    // A word cannot be written.
    Word(WordFault),
    // A port is not there.
    Port(PortFault),
}

// By hand, each of them: the From that a derive writes has no contract, and the calls' clauses name what `?` makes.
impl From<StoreFault> for CallFault {
    ghost from_gives = { λ x y. y ≡ fault.Byte x };

    fn from(byte: StoreFault) -> CallFault {
        CallFault::Byte(byte)
    }
}

impl From<WordFault> for CallFault {
    ghost from_gives = { λ x y. y ≡ fault.Word x };

    fn from(word: WordFault) -> CallFault {
        CallFault::Word(word)
    }
}

impl From<PortFault> for CallFault {
    ghost from_gives = { λ x y. y ≡ fault.Port x };

    fn from(port: PortFault) -> CallFault {
        CallFault::Port(port)
    }
}

impl From<IndexFault> for CallFault {
    ghost from_gives = { λ _ y. y ≡ fault.Index };

    fn from(_index: IndexFault) -> CallFault {
        CallFault::Index
    }
}

// The program is longer than the buffer of 4096 bytes that it was measured for.
impl From<WriteFault> for CallFault {
    ghost from_gives = { λ _ y. y ≡ fault.TooLong };

    fn from(_short: WriteFault) -> CallFault {
        CallFault::TooLong
    }
}

impl From<JournalEmpty> for CallFault {
    ghost from_gives = { λ _ y. y ≡ fault.NoEntry };

    fn from(_empty: JournalEmpty) -> CallFault {
        CallFault::NoEntry
    }
}

impl CallFault {
    // The refusal's number.
    pub fn number(self) -> u8
        ensures { result ≡ number_of self }
    {
        match self {
            CallFault::NoProgram => 20,
            CallFault::Loaded => 21,
            CallFault::Empty => 22,
            CallFault::TooLong => 23,
            CallFault::OutOfRange => 24,
            CallFault::Index => 26,
            CallFault::Waiting => 27,
            CallFault::JournalFull => 28,
            CallFault::NoEntry => 29,
            CallFault::Byte(fault) => fault.number(),
            CallFault::Word(fault) => fault.number(),
            CallFault::Port(fault) => fault.number(),
        }
    }

    // The address that the store refused.
    pub fn address(self) -> Option<Address>
        ensures { result ≡ address_of self }
    {
        match self {
            CallFault::Byte(fault) => Some(fault.address()),
            CallFault::Word(fault) => Some(fault.address()),
            _ => None,
        }
    }

    // The port that the bank refused.
    pub fn port(self) -> Option<Port>
        ensures { result ≡ port_of self }
    {
        match self {
            CallFault::Port(fault) => Some(fault.port()),
            _ => None,
        }
    }
}
