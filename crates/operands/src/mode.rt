// The modes of an operand.
ghost use Rattle.std.specs.Prelude.{◌≡◌};
ghost use Rattle.operands.specs.Modes.{ModeOf, memory, mode_number, unregistered};

// The kind of an operand, in the order of the modes' numbers, 0 to 6.
#[derive(Clone, Copy, PartialEq, Eq, Debug)]
pub enum Mode {
    Immediate,
    Register,
    Direct,
    Indirect,
    Relative,
    Indexed,
    PcRelative,
}

// A number that no mode has: 7 or above.
#[derive(Clone, Copy, PartialEq, Eq, Debug)]
pub struct UnknownMode(pub u8);

impl TryFrom<u8> for Mode {
    type Error = UnknownMode;

    ghost try_from_gives = { ModeOf };

    fn try_from(number: u8) -> Result<Mode, UnknownMode> {
        match number {
            0 => Ok(Mode::Immediate),
            1 => Ok(Mode::Register),
            2 => Ok(Mode::Direct),
            3 => Ok(Mode::Indirect),
            4 => Ok(Mode::Relative),
            5 => Ok(Mode::Indexed),
            6 => Ok(Mode::PcRelative),
            _ => Err(UnknownMode(number)),
        }
    }
}

impl Mode {
    // The high four bits of a mode byte.
    // A method and not From: u8::from(mode) would not say that it is half of a byte.
    pub fn number(self) -> u8
        ensures { result ≡ mode_number self }
    {
        self as u8
    }

    // Whether the operand is a place in memory: modes 2 to 5.
    pub fn is_memory(self) -> bool
        ensures { result ≡ memory self }
    {
        matches!(
            self,
            Mode::Direct | Mode::Indirect | Mode::Relative | Mode::Indexed
        )
    }

    // Whether the mode names no register, so that the digit of its mode byte is 0.
    pub fn is_unregistered(self) -> bool
        ensures { result ≡ unregistered self }
    {
        matches!(self, Mode::Immediate | Mode::Direct | Mode::PcRelative)
    }
}
