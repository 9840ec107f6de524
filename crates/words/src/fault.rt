// Why a word is not read or written.
ghost use Rattle.std.specs.Prelude.{◌≡◌};
ghost use Rattle.words.specs.Faults.{address_of, by_byte, number_of};

use memory::fault::StoreFault;
use quantity::Address;

// The refusal of the word's first byte that cannot be read or written, held whole.
#[derive(Clone, Copy, PartialEq, Eq, Debug)]
pub struct WordFault {
    pub byte: StoreFault,
}

impl WordFault {
    // The refusal's number: that of the byte.
    pub fn number(self) -> u8
        ensures { result ≡ number_of self }
    {
        self.byte.number()
    }

    // The address of the byte.
    pub fn address(self) -> Address
        ensures { result ≡ address_of self }
    {
        self.byte.address()
    }
}

// By hand: the From that a derive writes has no contract, and clauses name what `?` makes.
impl From<StoreFault> for WordFault {
    ghost from_gives = { λ x y. y ≡ by_byte x };

    fn from(byte: StoreFault) -> WordFault {
        WordFault { byte }
    }
}
