// The registers R0 to R15.
ghost use Rattle.std.specs.Prelude.{◌≡◌, ◌%◌, ◌<◌, Some, T, nat_lt};

use std::fmt;

// A register by its number. R15 is the stack pointer.
#[derive(Clone, Copy, PartialEq, Eq, Debug)]
pub struct Register {
    index: u8,
    ghost below: { T (nat_lt index 16) },
}

impl Register {
    // The register of the low four bits of `digit`.
    pub fn new(digit: u8) -> Register
        ensures { result.index ≡ digit % 16 }
    {
        Register { index: digit % 16 }
    }

    // The register's number, from 0 to 15.
    pub fn index(self) -> u8
        ensures value { result ≡ self.index }
        ensures bound { result < 16 }
    {
        self.index
    }
}

impl fmt::Display for Register {
    ghost use Rattle.operands.specs.Text.{register_text};

    ghost output = { λ register. Some (register_text register) };

    fn fmt<W: fmt::Write>(&self, f: &mut fmt::Formatter<W>) -> fmt::Result {
        write!(f, "R{}", self.index)
    }
}
