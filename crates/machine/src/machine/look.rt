// What is looked at, and what is seen.
use arithmetic::status::Status;
use operands::register::Register;
use quantity::{Address, Number, Port};

// What is looked at.
#[derive(Clone, Copy, PartialEq, Eq, Debug)]
pub enum Look {
    Register(Register),
    Pc,
    // The status bits, with IF.
    Status,
    // The index of the interrupt that waits.
    Index,
    // How many entries the journal has.
    Count,
    Byte(Address),
    Port(Port),
}

// What is seen.
#[derive(Clone, Copy, PartialEq, Eq, Debug)]
pub enum Shown {
    // The word of a register or a port.
    Word(Number),
    Address(Address),
    // Z, S, C, V and IE, and IF, which is set while an interrupt waits.
    Status { bits: Status, waiting: bool },
    // 0 while no interrupt waits: so the machine shows it, and IF tells 0 from none.
    Index(u8),
    Count(usize),
    Byte(u8),
}
