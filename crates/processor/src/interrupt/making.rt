// Making the index of an interrupt.
ghost use Rattle.std.specs.Prelude.{◌≡◌};
ghost use Rattle.processor.specs.Interrupts.{index_of, indexing};

use super::InterruptIndex;

// No interrupt has this index.
#[derive(Clone, Copy, PartialEq, Eq, Debug)]
pub struct IndexFault;

impl InterruptIndex {
    // The index of the low six bits.
    #[tactic(auto, using(crate::proofs::Indexes::same_index), unfolding(crate::specs::Interrupts::index_of))]
    fn low(number: u32) -> InterruptIndex
        ensures { result ≡ index_of number }
    {
        InterruptIndex {
            value: (number % 64) as u8,
        }
    }

    // The index as a number: a method, as `Register::index` is, since u8::from(index) would say less.
    pub fn value(self) -> u8
        ensures { result ≡ self.value }
    {
        self.value
    }
}

// The index of a number; one above 63 is refused.
impl TryFrom<u32> for InterruptIndex {
    type Error = IndexFault;

    ghost try_from_gives = { λ x y. y ≡ indexing x };

    fn try_from(number: u32) -> Result<InterruptIndex, IndexFault> {
        if number < 64 {
            Ok(InterruptIndex::low(number))
        } else {
            Err(IndexFault)
        }
    }
}
