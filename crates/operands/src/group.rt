// Which operands an operation takes: the rule of the legal pairings.
ghost use Rattle.std.specs.Prelude.{◌≡◌};
ghost use Rattle.operands.specs.Groups.{first_fits, operand_count, second_fits};

use crate::mode::Mode;

// A group of operations that take the same operands.
#[derive(Clone, Copy, PartialEq, Eq, Debug)]
pub enum Group {
    // No operand.
    Bare,
    // One: a register or memory.
    Single,
    // A register and any source, or memory and an immediate or a register.
    Pair,
    // One: an immediate, as an address or an index.
    Target,
    // One: a displacement from the next instruction.
    Jump,
    // A register, then memory that names a port.
    Inward,
    // Memory that names a port, then a register.
    Outward,
}

impl Group {
    // How many operands there are.
    pub fn operand_count(self) -> u8
        ensures { result ≡ operand_count self }
    {
        match self {
            Group::Bare => 0,
            Group::Single | Group::Target | Group::Jump => 1,
            Group::Pair | Group::Inward | Group::Outward => 2,
        }
    }

    // Whether a legal pairing begins with an operand of this mode.
    pub fn first_fits(self, first: Mode) -> bool
        ensures { result ≡ first_fits self first }
    {
        match self {
            Group::Bare => false,
            Group::Single | Group::Pair => first == Mode::Register || first.is_memory(),
            Group::Target => first == Mode::Immediate,
            Group::Jump => first == Mode::PcRelative,
            Group::Inward => first == Mode::Register,
            Group::Outward => first.is_memory(),
        }
    }

    // Whether a second operand of this mode may follow a first one of that mode.
    pub fn second_fits(self, first: Mode, second: Mode) -> bool
        ensures { result ≡ second_fits self first second }
    {
        match self {
            Group::Pair => {
                let plain = second == Mode::Immediate || second == Mode::Register;
                plain || (first == Mode::Register && second.is_memory())
            }
            Group::Inward => second.is_memory(),
            Group::Outward => second == Mode::Register,
            Group::Bare | Group::Single | Group::Target | Group::Jump => false,
        }
    }
}
