// Piles of layers at their edges.
use crate::write_through;
use codec::reader::Reader;
use codec::source::Span;
use memory::address_range::AddressRange;
use memory::bus::Bus;
use memory::chip::Chip;
use memory::seal::Seal;
use memory::window::Window;
use memory::{Readable, Store};
use ports::Ports;
use ports::mapped::Mapped;
use ports::table::Table;
use quantity::{Address, Number, Port};
use std::alloc::{AllocError, Global};
use std::test::Fail;
use words::access::{read_word, write_word};

fn zeros(heap: Global, base: u32, count: usize) -> Result<Chip, AllocError> {
    Ok(Chip::new(Address(base), vec![in heap; 0u8; count]?))
}

fn range(base: u32, length: u64) -> AddressRange {
    AddressRange {
        base: Address(base),
        length,
    }
}

#[test]
fn a_word_wraps_over_a_bus(rt: HostRuntime) -> Result<(), Fail> {
    let low = zeros(rt.alloc(), 0, 16)?;
    let high = zeros(rt.alloc(), 0xFFFF_F000, 4096)?;
    let mut bus = Bus::new(Address(0x8000_0000), low, high);
    let at = Address(0xFFFF_FFFE);
    write_word(&mut bus, at, Number(0x4433_2211))?;
    assert_eq!(rt; read_word(&bus, at)?, Number(0x4433_2211));
    assert_eq!(rt; bus.read(Address(0))?, 0x33);
    Ok(())
}

#[test]
fn a_word_that_ends_in_nothing_is_left(rt: HostRuntime) -> Result<(), Fail> {
    let low = zeros(rt.alloc(), 1, 16)?;
    let high = zeros(rt.alloc(), 0xFFFF_F000, 4096)?;
    let mut bus = Bus::new(Address(0x8000_0000), low, high);
    let written = write_word(&mut bus, Address(0xFFFF_FFFE), Number(0x4433_2211));
    let fault = written.expect_err(&rt, "written");
    assert_eq!(rt; fault.number(), 10);
    assert_eq!(rt; fault.address(), Address(0));
    assert_eq!(rt; bus.read(Address(0xFFFF_FFFE))?, 0);
    Ok(())
}

#[test]
fn a_chip_ends_at_the_last_address(rt: HostRuntime) -> Result<(), Fail> {
    let mut chip = zeros(rt.alloc(), 0xFFFF_FFFE, 4)?;
    chip.write(Address(0xFFFF_FFFF), 7)?;
    let fault = chip.write(Address(0), 7).expect_err(&rt, "written");
    assert_eq!(rt; fault.number(), 10);
    assert_eq!(rt; fault.address(), Address(0));
    Ok(())
}

#[test]
fn seals_fix_their_bytes_alone(rt: HostRuntime) -> Result<(), Fail> {
    let mut open = Seal::new(range(0, 0), zeros(rt.alloc(), 0, 8)?);
    open.write(Address(0), 7)?;
    let mut shut = Seal::new(range(2, 3), open);
    shut.write(Address(1), 7)?;
    shut.write(Address(5), 7)?;
    let fault = shut.write(Address(4), 7).expect_err(&rt, "written");
    assert_eq!(rt; fault.number(), 11);
    assert_eq!(rt; fault.address(), Address(4));
    // A byte that is absent is refused as such, inside the range too.
    let mut wide = Seal::new(range(0, 100), zeros(rt.alloc(), 0, 8)?);
    let fault = wide.write(Address(8), 7).expect_err(&rt, "written");
    assert_eq!(rt; fault.number(), 10);
    Ok(())
}

#[test]
fn banks_end_at_their_counts(rt: HostRuntime) -> Result<(), Fail> {
    let mut mapped = Mapped::new(1000, Address(0), zeros(rt.alloc(), 0, 4096)?);
    mapped.set(Port(255), Number(5))?;
    let fault = mapped.get(Port(256)).expect_err(&rt, "a port too many");
    assert_eq!(rt; fault.number(), 12);
    assert_eq!(rt; fault.port(), Port(256));
    let sealed = Seal::new(range(7, 1), zeros(rt.alloc(), 0, 64)?);
    let few = Mapped::new(3, Address(0), sealed);
    assert!(rt; few.get(Port(0)).is_ok() && few.get(Port(1)).is_err() && few.get(Port(3)).is_err());
    let mut table = Table::new();
    assert!(rt; table.set(Port(63), Number(5)).is_ok() && table.set(Port(64), Number(5)).is_err());
    Ok(())
}

#[test]
fn instructions_are_read_through_layers(rt: HostRuntime) -> Result<(), Fail> {
    let mut low = zeros(rt.alloc(), 0x10, 2)?;
    let mut high = zeros(rt.alloc(), 0x12, 2)?;
    low.write(Address(0x10), 0x42)?;
    low.write(Address(0x11), 0x60)?;
    high.write(Address(0x12), 0x84)?;
    let window = Window::new(0x10, Bus::new(Address(0x12), low, high));
    let mut reader = Reader::new(Span {
        memory: &window,
        first: Address(0),
        length: 100,
    });
    assert!(rt; reader.next().is_ok());
    assert!(rt; reader.is_at_end() && reader.place().offset == 4);
    Ok(())
}

#[test]
fn a_pile_of_four_keeps_what_it_is_given(rt: HostRuntime) -> Result<(), Fail> {
    let low = vec![in rt.alloc(); 0u8; 16]?;
    let high = vec![in rt.alloc(); 0u8; 16]?;
    let kept = write_through(Address(16), low, high, 8, range(4, 2), Address(9), 7);
    assert_eq!(rt; kept?, 7);
    let low = vec![in rt.alloc(); 0u8; 16]?;
    let high = vec![in rt.alloc(); 0u8; 16]?;
    let sealed = write_through(Address(16), low, high, 8, range(4, 2), Address(5), 7);
    let fault = sealed.expect_err(&rt, "written");
    assert_eq!(rt; fault.number(), 11);
    assert_eq!(rt; fault.address(), Address(5));
    Ok(())
}

#[test]
fn a_copy_of_a_chip_has_bytes_of_its_own(rt: HostRuntime) -> Result<(), Fail> {
    let chip = zeros(rt.alloc(), 0x10, 3)?;
    let mut copy = chip.clone()?;
    copy.write(Address(0x11), 9)?;
    assert_eq!(rt; copy.read(Address(0x11))?, 9);
    assert_eq!(rt; chip.read(Address(0x11))?, 0);
    Ok(())
}
