// Why a reading or a writing is turned away.
ghost use Rattle.std.specs.Prelude.{◌≡◌, Some};
ghost use Rattle.codec.specs.Faults.{fault, meaning, number_of, write_number};

use std::fmt;

// A place in the input: how many bytes stand before it.
#[derive(Clone, Copy, PartialEq, Eq, Debug)]
pub struct Place {
    pub offset: usize,
}

// What is wrong with a byte of the input, by the number of the refusal.
#[derive(Clone, Copy, PartialEq, Eq, Debug)]
pub enum ReadCause {
    // The input ends before it.
    Missing = 1,
    // No operation has this byte.
    UnknownOperation = 2,
    // The high four bits are no mode: 7 to 15.
    UnknownMode = 3,
    // No legal pairing begins so.
    Pairing = 4,
    // The low four bits are not 0 in a mode that names no register.
    Digit = 5,
}

impl fmt::Display for ReadCause {
    ghost output = { λ cause. Some (meaning cause) };

    fn fmt<W: fmt::Write>(&self, f: &mut fmt::Formatter<W>) -> fmt::Result {
        f.write_str(match self {
            ReadCause::Missing => "the next byte is missing",
            ReadCause::UnknownOperation => "no operation has this byte",
            ReadCause::UnknownMode => "no operand has this mode",
            ReadCause::Pairing => "no legal pairing begins so",
            ReadCause::Digit => "the digit is not 0",
        })
    }
}

impl ReadCause {
    // The refusal of the byte at a place.
    pub(crate) fn at(self, place: Place) -> ReadFault
        ensures { result ≡ fault self place.offset }
    {
        ReadFault { cause: self, place }
    }
}

// A refused reading, with the place of the byte at fault.
#[derive(Clone, Copy, PartialEq, Eq, Debug)]
pub struct ReadFault {
    pub cause: ReadCause,
    pub place: Place,
}

impl ReadFault {
    // The refusal's number, from 1 to 5.
    pub fn number(self) -> u8
        ensures { result ≡ number_of self.cause }
    {
        self.cause as u8
    }
}

// A refused writing, by the number of the refusal.
#[derive(Clone, Copy, PartialEq, Eq, Debug)]
pub enum WriteFault {
    // The buffer is too short.
    Short = 6,
}

impl WriteFault {
    // The refusal's number: 6.
    pub fn number(self) -> u8
        ensures { result ≡ write_number self }
    {
        self as u8
    }
}
