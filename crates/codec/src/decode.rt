// Decoding from left to right, up to the first fault.
ghost use Rattle.std.specs.Prelude.{◌≡◌};
ghost use Rattle.codec.specs.Decoding.{byte_at, bytes_at, clean, decode, displacement_at, fits_behind, four_at, judged_at, judged_mode, judged_operation, operand_at, operands_at, read_parts, taken, two_at, valued_at};
ghost use Rattle.codec.specs.Cursors.{Reads};

use crate::fault::{Place, ReadCause, ReadFault};
use crate::source::Source;
use cisca::instruction::Instruction;
use cisca::operation::Operation;
use operands::group::Group;
use operands::mode::Mode;
use operands::operand::Operand;
use operands::register::Register;
use quantity::{Address, Displacement, Number};

// What a mode byte says.
#[derive(Clone, Copy)]
struct ModeByte {
    mode: Mode,
    register: Register,
}

// Whether the digit may stand beside the mode.
fn is_clean(mode: Mode, digit: u8) -> bool
    ensures { result ≡ clean mode digit }
{
    !mode.is_unregistered() || digit == 0
}

// Where an operand stands: at first, or behind an operand of the mode before.
#[derive(Clone, Copy)]
struct Slot {
    group: Group,
    before: Option<Mode>,
}

impl Slot {
    // Whether an operand of this mode may stand here.
    fn fits(self, mode: Mode) -> bool
        ensures { result ≡ fits_behind self.group self.before mode }
    {
        match self.before {
            None => self.group.first_fits(mode),
            Some(first) => self.group.second_fits(first, mode),
        }
    }

    // A mode byte by its meaning: tested for an unknown mode, for the pairing, then for the digit.
    fn mode_byte(self, byte: u8, place: Place) -> Result<ModeByte, ReadFault>
        ensures { result ≡ judged_mode (fits_behind self.group self.before) byte place.offset }
    {
        let mode = Mode::try_from(byte / 16).map_err(|_| ReadCause::UnknownMode.at(place))?;
        if !self.fits(mode) {
            return Err(ReadCause::Pairing.at(place));
        }
        if !is_clean(mode, byte % 16) {
            return Err(ReadCause::Digit.at(place));
        }
        Ok(ModeByte {
            mode,
            register: Register::new(byte),
        })
    }
}

// A source with a place in it, which moves over each byte that is read. Behind a refusal the place
// has no meaning.
#[derive(Drop)]
pub(crate) struct Cursor<'a, S: Source> {
    pub(crate) source: &'a S,
    pub(crate) place: Place,
}

impl<S: Source> Cursor<'_, S> {
    fn byte(&mut self) -> Result<u8, ReadFault>
        ensures { Reads S.Source.shows byte_at self.old self.new result }
    {
        let byte = self
            .source
            .byte_at(self.place.offset)
            .ok_or(ReadCause::Missing.at(self.place))?;
        self.place.offset += 1;
        Ok(byte)
    }

    // The next `N` bytes.
    fn bytes<const N: usize>(&mut self) -> Result<[u8; N], ReadFault>
        ensures { Reads S.Source.shows (bytes_at N) self.old self.new result }
    {
        let mut bytes = [0; N];
        for byte in &mut bytes {
            *byte = self.byte()?;
        }
        Ok(bytes)
    }

    // A number of two bytes, lowest first.
    fn short(&mut self) -> Result<u16, ReadFault>
        ensures { Reads S.Source.shows two_at self.old self.new result }
    {
        Ok(u16::from_le_bytes(self.bytes()?))
    }

    // A number of four bytes, lowest first.
    fn word(&mut self) -> Result<u32, ReadFault>
        ensures { Reads S.Source.shows four_at self.old self.new result }
    {
        Ok(u32::from_le_bytes(self.bytes()?))
    }

    fn operation(&mut self) -> Result<Operation, ReadFault>
        ensures { Reads S.Source.shows (judged_at judged_operation) self.old self.new result }
    {
        let place = self.place;
        let byte = self.byte()?;
        Operation::try_from(byte).map_err(|_| ReadCause::UnknownOperation.at(place))
    }

    fn mode_byte(&mut self, slot: Slot) -> Result<ModeByte, ReadFault>
        ensures { Reads S.Source.shows (judged_at (judged_mode (fits_behind slot.group slot.before))) self.old self.new result }
    {
        let place = self.place;
        let byte = self.byte()?;
        slot.mode_byte(byte, place)
    }

    // The operand of a mode byte, whose value bytes are read.
    fn valued(&mut self, marked: ModeByte) -> Result<Operand, ReadFault>
        ensures { Reads S.Source.shows (valued_at marked.mode marked.register) self.old self.new result }
    {
        let register = marked.register;
        Ok(match marked.mode {
            Mode::Immediate => Operand::Immediate(Number(self.word()?)),
            Mode::Register => Operand::Register(register),
            Mode::Direct => Operand::Direct(Address(self.word()?)),
            Mode::Indirect => Operand::Indirect(register),
            Mode::Relative => Operand::Relative(register, self.displacement()?),
            Mode::Indexed => Operand::Indexed(Address(self.word()?), register),
            Mode::PcRelative => Operand::PcRelative(self.displacement()?),
        })
    }

    fn displacement(&mut self) -> Result<Displacement, ReadFault>
        ensures { Reads S.Source.shows displacement_at self.old self.new result }
    {
        Ok(Displacement(self.short()?.cast_signed()))
    }

    fn operand(&mut self, slot: Slot) -> Result<Operand, ReadFault>
        ensures { Reads S.Source.shows (operand_at (fits_behind slot.group slot.before)) self.old self.new result }
    {
        let marked = self.mode_byte(slot)?;
        self.valued(marked)
    }

    // As many operands as the group has: two Options, as the call that makes a record takes them.
    fn operands(&mut self, group: Group) -> Result<(Option<Operand>, Option<Operand>), ReadFault>
        ensures { Reads S.Source.shows (operands_at group) self.old self.new result }
    {
        let first = Slot {
            group,
            before: None,
        };
        match group {
            Group::Bare => Ok((None, None)),
            Group::Single | Group::Target | Group::Jump => Ok((Some(self.operand(first)?), None)),
            Group::Pair | Group::Inward | Group::Outward => {
                let first = self.operand(first)?;
                let second = self.operand(Slot {
                    group,
                    before: Some(first.mode()),
                })?;
                Ok((Some(first), Some(second)))
            }
        }
    }

    // The instruction at the place.
    pub(crate) fn instruction(&mut self) -> Result<Instruction, ReadFault>
        ensures same { self.new.source ≡ self.old.source }
        ensures reads { read_parts (taken result self.new.place.offset) ≡ decode (S.Source.shows self.old.source.now) self.old.place.offset }
    {
        let operation = self.operation()?;
        let (first, second) = self.operands(operation.group())?;
        // What is read goes together.
        Ok(Instruction::new(operation, first, second).unwrap())
    }
}
