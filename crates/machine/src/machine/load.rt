// Loading a program.
ghost use Rattle.std.specs.Prelude.{◌≡◌, ◌≤◌, List, Ok};
ghost use Rattle.machine.specs.Loads.{admitted, in_range, installed};
ghost use Rattle.machine.specs.Machines.{state_of};

use crate::fault::CallFault;
use crate::machine::Machine;
use cisca::instruction::Instruction;
use journal::journaled::calls::Journal;
use loading::laying::{lay_program, vacant};
use loading::layout::MOST_BYTES;
use memory::Store;
use memory::address_range::AddressRange;
use ports::Ports;
use processor::state::Processor;
use program::write::measure;
use quantity::Address;

// Programs lie from here on,
const FIRST: u32 = 0x100;
// and end here at the latest.
const END: u64 = 0xFFFF_0000;

// Whether so many bytes from an address on lie within 00000100h to FFFEFFFFh.
fn is_in_range(at: Address, length: usize) -> bool
    requires { length ≤ 4096 }
    ensures { result ≡ in_range at length }
{
    at.0 >= FIRST && u64::from(at.0) + length as u64 <= END
}

// An address and a program stay two parameters: load's callers have them apart, and nothing keeps the pair.
impl<S: Store, P: Ports> Machine<S, P> {
    // The length of a program that may be loaded at an address, or the first refusal.
    pub(super) fn admit(&self, at: Address, program: &[Instruction]) -> Result<usize, CallFault>
        ensures { result ≡ admitted at program.now (state_of S.Readable.cells P.Ports.words self.now) }
    {
        if !self.layout.is_empty() {
            return Err(CallFault::Loaded);
        }
        if program.is_empty() {
            return Err(CallFault::Empty);
        }
        let length = measure(program, MOST_BYTES)?;
        if !is_in_range(at, length) {
            return Err(CallFault::OutOfRange);
        }
        vacant(&self.system.memory, at, length)?;
        Ok(length)
    }

    // Writes and seals the program's bytes, and begins anew at its address.
    pub(super) fn install(&mut self, at: Address, program: &[Instruction], length: usize)
        requires { admitted at program.now (state_of S.Readable.cells P.Ports.words self.old) ≡ Ok length }
        ensures { state_of S.Readable.cells P.Ports.words self.new ≡ installed at program.now (state_of S.Readable.cells P.Ports.words self.old) }
    {
        lay_program(&mut self.system.memory.below, at, program);
        self.system.memory.cover(AddressRange {
            base: at,
            length: length as u64,
        });
        self.system.processor = Processor::new(at);
        self.system.forget();
        self.layout.lay_out(program).unwrap();
        self.base = at;
    }
}
