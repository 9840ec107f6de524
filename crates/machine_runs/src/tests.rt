// What no contract can say of the calls on a machine: that its making succeeds, and what a short
// run of them gives.
use cisca::instruction::Instruction;
use cisca::operation::Operation;
use history::call::{Call, Outcome, Refusal};
use history::perform::perform;
use machine::fault::CallFault;
use machine::machine::Machine;
use machine::machine::look::{Look, Shown};
use machine::machine::step::Stepped;
use machine::saw_box::SawBox;
use memory::chip::Chip;
use operands::operand::Operand;
use operands::register::Register;
use ports::table::Table;
use quantity::{Address, Number, Port};
use std::alloc::{AllocError, Global};
use std::test::Fail;

const START: Address = Address(0x100);

// A machine over a chip of 8,192 zero bytes from 0 on and the table of ports.
fn fitted(heap: Global) -> Result<Machine<Chip, Table>, AllocError> {
    let bytes = vec![in heap; 0u8; 8192]?;
    Machine::new(heap, Chip::new(Address(0), bytes), Table::new())
}

fn increment(register: u8) -> Result<Instruction, Fail> {
    let operand = Operand::Register(Register::new(register));
    Ok(Instruction::new(Operation::Inc, Some(operand), None)?)
}

fn word_of(machine: &Machine<Chip, Table>, what: Look) -> Result<u32, Fail> {
    match machine.look(what) {
        Ok(Shown::Word(word)) => Ok(word.0),
        Ok(Shown::Address(at)) => Ok(at.0),
        _ => Err(Fail::new("no word")),
    }
}

fn count_of(machine: &Machine<Chip, Table>) -> Result<usize, Fail> {
    match machine.look(Look::Count) {
        Ok(Shown::Count(count)) => Ok(count),
        _ => Err(Fail::new("no count")),
    }
}

#[test]
fn a_step_is_tried_and_taken_back(rt: HostRuntime) -> Result<(), Fail> {
    let mut machine = fitted(rt.alloc())?;
    let r1 = Look::Register(Register::new(1));
    assert!(rt; machine.load(START, &[increment(1)?]).is_ok());
    let stepped = Stepped::Executed(START, increment(1)?);
    assert!(rt; machine.step() == Ok(stepped));
    assert!(rt; word_of(&machine, Look::Pc)? == 0x102);
    assert!(rt; word_of(&machine, r1)? == 1);
    assert!(rt; count_of(&machine)? == 1);

    assert!(rt; machine.back().is_ok());
    assert!(rt; word_of(&machine, Look::Pc)? == 0x100);
    assert!(rt; word_of(&machine, r1)? == 0);
    assert!(rt; count_of(&machine)? == 0);
    let fault = machine.back().err().ok_or("taken back twice")?;
    assert!(rt; fault.number() == 29);
    Ok(())
}

#[test]
fn without_a_program_calls_give_20(rt: HostRuntime) -> Result<(), Fail> {
    let mut machine = fitted(rt.alloc())?;
    let stopped = machine.step().err().ok_or("stepped")?;
    assert!(rt; stopped.number() == 20 && stopped.pc.0 == 0);
    let unset = machine.set_word(START, Number(1)).err().ok_or("set")?;
    assert!(rt; unset.number() == 20);
    let kept = machine.release().err().ok_or("released")?;
    assert!(rt; kept.number() == 20);
    assert!(rt; word_of(&machine, Look::Pc)? == 0);
    Ok(())
}

#[test]
fn a_journal_is_full_at_256_entries(rt: HostRuntime) -> Result<(), Fail> {
    let mut machine = fitted(rt.alloc())?;
    assert!(rt; machine.load(START, &[increment(1)?]).is_ok());
    for n in 0..256u32 {
        assert!(rt; machine.set_port(Port(63), Number(n)).is_ok());
    }
    let full = machine.set_port(Port(63), Number(256)).err().ok_or("set")?;
    assert!(rt; full.number() == 28);
    assert!(rt; count_of(&machine)? == 256);
    assert!(rt; word_of(&machine, Look::Port(Port(63)))? == 255);

    assert!(rt; machine.release().is_ok());
    assert!(rt; count_of(&machine)? == 0);
    assert!(rt; word_of(&machine, Look::Port(Port(63)))? == 255);
    Ok(())
}

#[test]
fn loads_are_refused_in_their_order(rt: HostRuntime) -> Result<(), Fail> {
    let mut machine = fitted(rt.alloc())?;
    let empty = machine.load(Address(0), &[]).err().ok_or("loaded nothing")?;
    assert!(rt; empty.number() == 22);
    let low = machine
        .load(Address(0xFF), &[increment(1)?])
        .err()
        .ok_or("loaded below 100h")?;
    assert!(rt; low.number() == 24);
    let absent = machine
        .load(Address(0x1FFF), &[increment(1)?])
        .err()
        .ok_or("loaded beside the chip")?;
    assert!(rt; absent.number() == 10);
    assert!(rt; absent.address() == Some(Address(0x2000)));
    assert!(rt; machine.load(START, &[increment(1)?]).is_ok());
    let again = machine.load(START, &[]).err().ok_or("loaded twice")?;
    assert!(rt; again.number() == 21);
    let sealed = machine
        .set_word(START, Number(0))
        .err()
        .ok_or("written over the program")?;
    assert!(rt; sealed.number() == 11);
    Ok(())
}

#[test]
fn calls_are_done_as_data(rt: HostRuntime) -> Result<(), Fail> {
    let mut machine = fitted(rt.alloc())?;
    let r1 = Call::Look(Look::Register(Register::new(1)));
    let program = vec![in rt.alloc(); increment(1)?]?;
    let stepped = Outcome::Stepped(Stepped::Executed(START, increment(1)?));
    assert!(rt; perform(&mut machine, &Call::Load(START, program)) == Ok(Outcome::Done));
    assert!(rt; perform(&mut machine, &Call::Step) == Ok(stepped));
    assert!(rt; perform(&mut machine, &r1) == Ok(Outcome::Shown(Shown::Word(Number(1)))));
    assert!(rt; perform(&mut machine, &Call::Back) == Ok(Outcome::Done));
    assert!(rt; perform(&mut machine, &r1) == Ok(Outcome::Shown(Shown::Word(Number(0)))));
    let refused = Err(Refusal::Call(CallFault::NoEntry));
    assert!(rt; perform(&mut machine, &Call::Back) == refused);
    Ok(())
}
