// Examples run through the reader, the writer and the making of records.
use cisca::instruction::Instruction;
use cisca::operation::Operation;
use codec::reader::Reader;
use codec::source::{ByteString, Source, Span};
use codec::writer::write;
use memory::read_only_chip::ReadOnlyChip;
use operands::operand::Operand;
use operands::register::Register;
use program::compare::begins;
use program::read::read_program;
use program::write::write_program;
use quantity::{Address, Displacement, Number};
use std::process::Abort;
use std::test::Fail;

// These bytes read as this instruction, and it is written as these bytes.
fn agrees(rt: &impl Abort, bytes: &[u8], expected: Instruction) -> Result<(), Fail> {
    let mut reader = Reader::new(ByteString(bytes));
    let found = reader.next()?;
    assert_eq!(rt; found, expected);
    assert_eq!(rt; reader.place().offset, bytes.len());
    let mut out = [0xEEu8; 12];
    let size = write(&expected, &mut out)?;
    assert_eq!(rt; size, bytes.len());
    assert!(rt; out.starts_with(bytes));
    assert_eq!(rt; out[11], 0xEE);
    Ok(())
}

fn single(operation: Operation, first: Operand) -> Result<Instruction, Fail> {
    Ok(Instruction::new(operation, Some(first), None)?)
}

fn pair(operation: Operation, first: Operand, second: Operand) -> Result<Instruction, Fail> {
    Ok(Instruction::new(operation, Some(first), Some(second))?)
}

#[test]
fn encodings_agree(rt: HostRuntime) -> Result<(), Fail> {
    let target = Operand::Immediate(Number(0x1FF0_0030));
    let back = Operand::PcRelative(Displacement(-132));
    let ahead = Operand::PcRelative(Displacement(132));
    let direct = Operand::Direct(Address(0x0012_005B));
    let pointed = Operand::Indirect(Register::new(4));
    let slot = Operand::Relative(Register::new(4), Displacement(32));
    let hundred = Operand::Immediate(Number(100));
    let encodings: [(&[u8], Instruction); 8] = [
        (
            &[0x40, 0x00, 0x30, 0x00, 0xF0, 0x1F],
            single(Operation::Jmp, target)?,
        ),
        (
            &[0x47, 0x00, 0x30, 0x00, 0xF0, 0x1F],
            single(Operation::Call, target)?,
        ),
        (&[0x42, 0x60, 0x7C, 0xFF], single(Operation::Jne, back)?),
        (&[0x42, 0x60, 0x84, 0x00], single(Operation::Jne, ahead)?),
        (
            &[0x34, 0x20, 0x5B, 0x00, 0x12, 0x00],
            single(Operation::Not, direct)?,
        ),
        (&[0x25, 0x34], single(Operation::Dec, pointed)?),
        (&[0x48], Instruction::new(Operation::Ret, None, None)?),
        (
            &[0x10, 0x44, 0x20, 0x00, 0x00, 0x64, 0x00, 0x00, 0x00],
            pair(Operation::Mov, slot, hundred)?,
        ),
    ];
    for (bytes, expected) in encodings {
        agrees(&rt, bytes, expected)?;
    }
    Ok(())
}

// The reading of these bytes is refused with this number at this place, and the place of the
// reader, and a look ahead, stay as they were.
fn refuses<S: Source + Drop>(
    rt: &impl Abort,
    source: S,
    number: u8,
    place: usize,
) -> Result<(), Fail> {
    let mut reader = Reader::new(source);
    let Err(ahead) = reader.peek() else {
        return Err(Fail::new("seen ahead"));
    };
    assert_eq!(rt; ahead.number(), number);
    assert_eq!(rt; ahead.place.offset, place);
    let Err(fault) = reader.next() else {
        return Err(Fail::new("taken"));
    };
    assert_eq!(rt; fault.number(), number);
    assert_eq!(rt; fault.place.offset, place);
    assert_eq!(rt; reader.place().offset, 0);
    Ok(())
}

#[test]
fn refusals_come_at_the_first_fault(rt: HostRuntime) -> Result<(), Fail> {
    let refusals: [(&[u8], u8, usize); 11] = [
        (&[0x42, 0x60, 0x84], 1, 3),
        (&[], 1, 0),
        (&[0x10, 0x11], 1, 2),
        (&[0x03], 2, 0),
        (&[0x24, 0x70], 3, 1),
        (&[0x11, 0x00], 4, 1),
        (&[0x24, 0x21], 5, 1),
        (&[0x40, 0x01, 0, 0, 0, 0], 5, 1),
        // The mode is tested first, then the pairing, then the digit.
        (&[0x24, 0x71], 3, 1),
        (&[0x24, 0x61], 4, 1),
        (&[0x10, 0x20, 0x00, 0x01, 0x00, 0x00, 0x30], 4, 6),
    ];
    for (bytes, number, place) in refusals {
        refuses(&rt, ByteString(bytes), number, place)?;
    }
    Ok(())
}

#[test]
fn memory_ends_at_its_length_or_its_first_absent_byte(rt: HostRuntime) -> Result<(), Fail> {
    let bytes = [0x24, 0x13, 0x42, 0x60, 0x84, 0x00];
    let memory = ReadOnlyChip::new(Address(0x100), &bytes);
    let mut reader = Reader::new(Span {
        memory: &memory,
        first: Address(0x100),
        length: 1000,
    });
    assert!(rt; reader.next().is_ok());
    assert!(rt; reader.next().is_ok());
    assert!(rt; reader.is_at_end() && reader.place().offset == 6);
    // A length ends inside an instruction, and so does a memory.
    refuses(
        &rt,
        Span {
            memory: &memory,
            first: Address(0x102),
            length: 3,
        },
        1,
        3,
    )?;
    refuses(
        &rt,
        Span {
            memory: &memory,
            first: Address(0x106),
            length: 1000,
        },
        1,
        0,
    )?;
    let cut = ReadOnlyChip::new(Address(0x100), &[0x42, 0x60, 0x84]);
    refuses(
        &rt,
        Span {
            memory: &cut,
            first: Address(0x100),
            length: 1000,
        },
        1,
        3,
    )?;
    // A chip at the last address has nothing above it.
    let last = ReadOnlyChip::new(Address(0xFFFF_FFFF), &bytes);
    refuses(
        &rt,
        Span {
            memory: &last,
            first: Address(0xFFFF_FFFF),
            length: 2,
        },
        1,
        1,
    )
}

#[test]
fn a_look_ahead_puts_the_place_back(rt: HostRuntime) -> Result<(), Fail> {
    let mut reader = Reader::new(ByteString(&[0x24, 0x13, 0x00]));
    assert!(rt; reader.next().is_ok());
    let ahead = reader.peek()?;
    let found = reader.next()?;
    assert_eq!(rt; ahead, found);
    assert_eq!(rt; ahead, Instruction::new(Operation::Nop, None, None)?);
    Ok(())
}

#[test]
fn records_are_legal(rt: HostRuntime) -> Result<(), Fail> {
    let register = Operand::Register(Register::new(0x13));
    assert_eq!(rt;
        single(Operation::Inc, register)?,
        single(Operation::Inc, Operand::Register(Register::new(3)))?
    );
    let slot = Operand::Indirect(Register::new(1));
    let Err(fault) = Instruction::new(Operation::Mov, Some(slot), Some(slot)) else {
        return Err(Fail::new("memory to memory"));
    };
    assert_eq!(rt; fault.number(), 4);
    assert!(rt; Instruction::new(Operation::Nop, Some(register), None).is_err());
    assert!(rt; Instruction::new(Operation::Push, None, None).is_err());
    assert!(rt; Instruction::new(Operation::Push, None, Some(register)).is_err());
    assert!(rt; Instruction::new(Operation::Out, Some(slot), Some(register)).is_ok());
    Ok(())
}

#[test]
fn programs_go_there_and_back(rt: HostRuntime) -> Result<(), Fail> {
    let bytes = [0x24, 0x13, 0x00, 0x11, 0x13];
    let nop = Instruction::new(Operation::Nop, None, None)?;
    let mut records = [nop; 4];
    let count = read_program(&ByteString(&bytes), &mut records)?;
    assert_eq!(rt; count, 3);
    let third = Operand::Register(Register::new(3));
    assert_eq!(rt; records[0], single(Operation::Inc, third)?);
    assert_eq!(rt; records[2], single(Operation::Push, third)?);
    assert_eq!(rt; records[3], nop);
    let mut out = [0xEEu8; 8];
    let size = write_program(&records, &mut out)?;
    assert_eq!(rt; size, 6);
    assert_eq!(rt; out, [0x24, 0x13, 0x00, 0x11, 0x13, 0x00, 0xEE, 0xEE]);
    Ok(())
}

#[test]
fn short_lists_and_buffers_are_left_alone(rt: HostRuntime) -> Result<(), Fail> {
    let nop = Instruction::new(Operation::Nop, None, None)?;
    let mut records = [nop; 2];
    let Err(fault) = read_program(&ByteString(&[0x48, 0x48, 0x48]), &mut records) else {
        return Err(Fail::new("taken"));
    };
    assert_eq!(rt; fault.number(), 6);
    assert_eq!(rt; fault.place(), None);
    assert_eq!(rt; records, [nop; 2]);
    // A fault of the input comes before a list that is too short.
    let Err(fault) = read_program(&ByteString(&[0x48, 0x48, 0x48, 0x03]), &mut records) else {
        return Err(Fail::new("taken"));
    };
    assert_eq!(rt; fault.number(), 2);
    assert_eq!(rt; records[0], nop);
    let mut out = [0xEEu8; 2];
    let Err(fault) = write_program(&[nop, nop, nop], &mut out) else {
        return Err(Fail::new("written"));
    };
    assert_eq!(rt; fault.number(), 6);
    assert_eq!(rt; out, [0xEE, 0xEE]);
    assert!(rt; read_program(&ByteString(&[]), &mut records).is_ok());
    Ok(())
}

#[test]
fn programs_begin_one_another(rt: HostRuntime) -> Result<(), Fail> {
    let nop = Instruction::new(Operation::Nop, None, None)?;
    let ret = Instruction::new(Operation::Ret, None, None)?;
    assert!(rt; begins(&[nop], &[nop, ret]));
    assert!(rt; begins(&[], &[]));
    assert!(rt; !begins(&[ret], &[nop, ret]));
    assert!(rt; !begins(&[nop, ret], &[nop]));
    Ok(())
}
