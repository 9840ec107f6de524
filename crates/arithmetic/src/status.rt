// The status bits and their word.
ghost use Rattle.std.specs.Prelude.{◌≡◌};
ghost use Rattle.arithmetic.specs.Results.{following, number};
ghost use Rattle.arithmetic.specs.StatusWord.{Packs, Unpacks, packed, weighed};

use quantity::Number;

// Z, S, C and V, which tell of the last result, and IE, which lets requests in.
#[derive(Clone, Copy, PartialEq, Eq, Debug, Default)]
pub struct Status {
    pub zero: bool,
    pub sign: bool,
    pub carry: bool,
    pub overflow: bool,
    pub enabled: bool,
}

// The weight where the bit is set, else 0.
fn bit(set: bool, weight: u32) -> u32
    ensures { result ≡ weighed set weight }
{
    if set { weight } else { 0 }
}

// The sum of the weights of the bits that are set.
fn sum_of_weights(s: Status) -> u32
    ensures { result ≡ (packed s).0 }
{
    bit(s.zero, 1) + bit(s.sign, 2) + bit(s.carry, 4) + bit(s.overflow, 8) + bit(s.enabled, 16)
}

impl Status {
    // A result, and the status after it: Z and S follow the word, C and V are given, and IE stays.
    pub(crate) fn with_result(self, word: u32, carry: bool, overflow: bool) -> (Number, Status)
        ensures { result ≡ (number word, following self word carry overflow) }
    {
        let after = Status {
            zero: word == 0,
            sign: word >= 0x8000_0000,
            carry,
            overflow,
            ..self
        };
        (Number(word), after)
    }
}

// The status word: Z, S, C, V and IE in bits 0 to 4, and zeros above.
impl From<Status> for Number {
    ghost from_gives = { Packs };

    #[tactic(auto, using(crate::proofs::Restoring::restored))]
    fn from(status: Status) -> Number {
        Number(sum_of_weights(status))
    }
}

// The status of a word; the bits above bit 4 are ignored.
impl From<Number> for Status {
    ghost from_gives = { Unpacks };

    fn from(word: Number) -> Status {
        let is_set = |weight: u32| word.0 / weight % 2 == 1;
        Status {
            zero: is_set(1),
            sign: is_set(2),
            carry: is_set(4),
            overflow: is_set(8),
            enabled: is_set(16),
        }
    }
}
