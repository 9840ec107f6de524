// The four quantities of the machine. Each has a type of its own, so that a port never enters a
// call on memory, and a number is never taken for an address.
#![tactic(auto)]

ghost use Rattle.std.specs.Prelude.{◌≡◌, Some};
ghost use Rattle.std.specs.Fmt.{WritesOnOk, decimal};
ghost use Rattle.quantity.specs.Conversions.{address_of, number_of, port_of};
ghost use Rattle.quantity.specs.Sums.{displaced, later};
ghost use Rattle.quantity.specs.Text.{hexadecimal, with_sign};

use std::fmt;

// A place in memory, from 0 to 2^32 - 1.
#[derive(Clone, Copy, PartialEq, Eq, PartialOrd, Ord, Debug)]
pub struct Address(pub u32);

// The number of an input or output port.
#[derive(Clone, Copy, PartialEq, Eq, Debug)]
pub struct Port(pub u32);

// A word of 32 bits, as a number in two's complement.
#[derive(Clone, Copy, PartialEq, Eq, Debug)]
pub struct Number(pub u32);

// A signed distance between two addresses, from -32,768 to 32,767.
#[derive(Clone, Copy, PartialEq, Eq, Debug)]
pub struct Displacement(pub i16);

impl Address {
    // The address `count` bytes further on, wrapping at 2^32.
    pub fn later(self, count: u32) -> Address
        ensures { result ≡ later self count }
    {
        Address(self.0.wrapping_add(count))
    }

    // The address moved by a signed displacement, wrapping at 2^32.
    pub fn displaced(self, by: Displacement) -> Address
        ensures { result ≡ displaced self by }
    {
        Address(self.0.wrapping_add_signed(i32::from(by.0)))
    }
}

// A word that holds an address.
impl From<Number> for Address {
    ghost from_gives = { λ word at. at ≡ address_of word };

    fn from(word: Number) -> Address {
        Address(word.0)
    }
}

// An address that is kept as a word.
impl From<Address> for Number {
    ghost from_gives = { λ at word. word ≡ number_of at };

    fn from(at: Address) -> Number {
        Number(at.0)
    }
}

// The port that an operand's address names.
impl From<Address> for Port {
    ghost from_gives = { λ at port. port ≡ port_of at };

    fn from(at: Address) -> Port {
        Port(at.0)
    }
}

// Writes eight hexadecimal capitals and `h`.
fn write_hexadecimal<W: fmt::Write>(f: &mut fmt::Formatter<W>, number: u32) -> fmt::Result
    ensures { WritesOnOk W.write_str_gives f.old result (hexadecimal number) f.new }
{
    write!(f, "{number:08X}h")
}

impl fmt::Display for Address {
    ghost output = { λ at. Some (hexadecimal at.0) };

    fn fmt<W: fmt::Write>(&self, f: &mut fmt::Formatter<W>) -> fmt::Result {
        write_hexadecimal(f, self.0)
    }
}

impl fmt::Display for Number {
    ghost output = { λ word. Some (hexadecimal word.0) };

    fn fmt<W: fmt::Write>(&self, f: &mut fmt::Formatter<W>) -> fmt::Result {
        write_hexadecimal(f, self.0)
    }
}

impl fmt::Display for Port {
    ghost output = { λ port. Some (decimal port.0) };

    fn fmt<W: fmt::Write>(&self, f: &mut fmt::Formatter<W>) -> fmt::Result {
        write!(f, "{}", self.0)
    }
}

impl fmt::Display for Displacement {
    ghost output = { λ by. Some (with_sign by.0) };

    fn fmt<W: fmt::Write>(&self, f: &mut fmt::Formatter<W>) -> fmt::Result {
        write!(f, "{:+}", self.0)
    }
}
