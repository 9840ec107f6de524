// Operands.
ghost use Rattle.std.specs.Prelude.{◌≡◌, Some};
ghost use Rattle.operands.specs.Modes.{mode};
ghost use Rattle.operands.specs.Text.{operand_text};

use crate::mode::Mode;
use crate::register::Register;
use quantity::{Address, Displacement, Number};
use std::fmt;

// What an instruction works on.
#[derive(Clone, Copy, PartialEq, Eq, Debug)]
pub enum Operand {
    // The word itself.
    Immediate(Number),
    // What the register holds.
    Register(Register),
    // Memory at the address.
    Direct(Address),
    // Memory at the address in the register.
    Indirect(Register),
    // Memory at the address in the register, moved by the displacement.
    Relative(Register, Displacement),
    // Memory at the address plus what the register holds.
    Indexed(Address, Register),
    // The address of the next instruction, moved by the displacement.
    PcRelative(Displacement),
}

impl Operand {
    pub fn mode(&self) -> Mode
        ensures { result ≡ mode self.now }
    {
        match self {
            Operand::Immediate(_) => Mode::Immediate,
            Operand::Register(_) => Mode::Register,
            Operand::Direct(_) => Mode::Direct,
            Operand::Indirect(_) => Mode::Indirect,
            Operand::Relative(_, _) => Mode::Relative,
            Operand::Indexed(_, _) => Mode::Indexed,
            Operand::PcRelative(_) => Mode::PcRelative,
        }
    }
}

impl fmt::Display for Operand {
    ghost output = { λ operand. Some (operand_text operand) };

    fn fmt<W: fmt::Write>(&self, f: &mut fmt::Formatter<W>) -> fmt::Result {
        match self {
            Operand::Immediate(number) => write!(f, "{number}"),
            Operand::Register(register) => write!(f, "{register}"),
            Operand::Direct(at) => write!(f, "[{at}]"),
            Operand::Indirect(register) => write!(f, "[{register}]"),
            Operand::Relative(register, by) => write!(f, "[{register}{by}]"),
            Operand::Indexed(at, register) => write!(f, "[{at}+{register}]"),
            Operand::PcRelative(by) => write!(f, "PC{by}"),
        }
    }
}
