// Fits the memory of a box: builds a pile of layers with a bank of ports on it, and shows what it
// takes and what it refuses.
#![tactic(auto)]

use memory::address_range::AddressRange;
use memory::bus::Bus;
use memory::chip::Chip;
use memory::seal::Seal;
use memory::window::Window;
use memory::{Readable, Store};
use ports::Ports;
use ports::mapped::Mapped;
use quantity::{Address, Number, Port};
use std::alloc::Global;
use std::io;
use words::access::write_word_verified;

fn main(rt: HostRuntime) -> anyhow::Result<()> {
    run(&rt, rt.alloc())
}

fn run(rt: &impl Print, heap: Global) -> anyhow::Result<()> {
    let first = Address(0x1000);
    let second = Address(0x1010);
    let low = Chip::new(first, vec![in heap; 0u8; 16]?);
    let high = Chip::new(second, vec![in heap; 0u8; 14]?);
    println!(rt; "a chip of 16 bytes at {first}, one of 14 at {second}")?;
    let bus = Bus::new(second, low, high);
    println!(rt; "a bus that joins them at {second}")?;
    let window = Window::new(0x1000, bus);
    let start = Address(0);
    println!(rt; "a window that shows them from {start} on")?;
    let range = AddressRange {
        base: Address(6),
        length: 2,
    };
    let mut pile = Seal::new(range, window);
    println!(rt; "a seal over {} bytes at {}", range.length, range.base)?;
    put(rt, &mut pile, Address(0), Number(0x4433_2211))?;
    put(rt, &mut pile, Address(0x0E), Number(0x8877_6655))?;
    put(rt, &mut pile, Address(4), Number(0x0D0C_0B0A))?;
    put(rt, &mut pile, Address(0x1B), Number(0x0D0C_0B0A))?;
    show_bytes(rt, &pile, Address(0x1B), 4)?;
    let mut bank = Mapped::new(8, start, pile);
    println!(rt; "a bank of 8 ports, the words from {start} on")?;
    for port in (0..9).map(Port) {
        show_port(rt, &bank, port)?;
    }
    set_port(rt, &mut bank, Port(2), Number(0x0BAD_CAFE))?;
    set_port(rt, &mut bank, Port(1), Number(0x0BAD_CAFE))?;
    for port in (0..4).map(Port) {
        show_port(rt, &bank, port)?;
    }
    Ok(())
}

// Writes a word and reads it back.
fn put<S: Store>(rt: &impl Print, store: &mut S, at: Address, word: Number) -> io::Result<()> {
    print!(rt; "write {word} at {at}: ")?;
    match write_word_verified(store, at, word) {
        Ok(read) => println!(rt; "taken, and reads {read}"),
        Err(fault) => println!(rt; "refused with {} at {}", fault.number(), fault.address()),
    }
}

fn show_bytes<M: Readable>(
    rt: &impl Print,
    memory: &M,
    first: Address,
    count: u32,
) -> io::Result<()> {
    print!(rt; "bytes from {first} on:")?;
    for at in (0..count).map(|k| first.later(k)) {
        match memory.read(at) {
            Ok(byte) => print!(rt; " {byte:02X}")?,
            Err(_) => print!(rt; " --")?,
        }
    }
    println!(rt; "")
}

fn show_port<P: Ports>(rt: &impl Print, bank: &P, port: Port) -> io::Result<()> {
    match bank.get(port) {
        Ok(word) => println!(rt; "port {port}: {word}"),
        Err(fault) => println!(rt; "port {port}: refused with {}", fault.number()),
    }
}

fn set_port<P: Ports>(rt: &impl Print, bank: &mut P, port: Port, word: Number) -> io::Result<()> {
    match bank.set(port, word) {
        Ok(()) => println!(rt; "set port {port} to {word}: taken"),
        Err(fault) => println!(rt; "set port {port}: refused with {}", fault.number()),
    }
}
