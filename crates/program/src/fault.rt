// Why a whole program is not read.
ghost use Rattle.std.specs.Prelude.{◌≡◌};
ghost use Rattle.program.specs.Faults.{number_of, place_of};
ghost use Rattle.program.specs.declared.fault.ProgramFault.TheVariants.{Read};

use codec::fault::{Place, ReadFault};

#[derive(Clone, Copy, PartialEq, Eq, Debug)]
pub enum ProgramFault {
    // An instruction is refused.
    Read(ReadFault),
    // The list is too short for the records.
    Short,
}

impl ProgramFault {
    // The refusal's number: 1 to 5 for an instruction, 6 for a list that is too short.
    pub fn number(self) -> u8
        ensures { result ≡ number_of self }
    {
        match self {
            ProgramFault::Read(fault) => fault.number(),
            ProgramFault::Short => 6,
        }
    }

    // The place of the byte at fault; a list that is too short names none.
    pub fn place(self) -> Option<Place>
        ensures { result ≡ place_of self }
    {
        match self {
            ProgramFault::Read(fault) => Some(fault.place),
            ProgramFault::Short => None,
        }
    }
}

// By hand: the From that a derive writes has no contract, and a clause names what `?` makes.
impl From<ReadFault> for ProgramFault {
    ghost from_gives = { λ x y. y ≡ Read x };

    fn from(value: ReadFault) -> ProgramFault {
        ProgramFault::Read(value)
    }
}
