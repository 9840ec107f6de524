// What a processor holds.
ghost use Rattle.std.specs.Prelude.{◌≡◌};
ghost use Rattle.processor.specs.Processors.{blank, due, register_word};
ghost use Rattle.processor.specs.Registers.{lowered, raised, stack_moved, stack_top, with_pc, with_register, with_status};

use crate::interrupt::InterruptIndex;
use arithmetic::status::Status;
use operands::register::Register;
use quantity::{Address, Number};

// The registers R0 to R15, of which R15 is the stack pointer SP; the program counter; the status
// bits Z, S, C, V and IE; and the interrupt that waits. The bit IF is set exactly while one waits.
#[derive(Clone, Copy, PartialEq, Eq, Debug)]
pub struct Processor {
    pub registers: [Number; 16],
    pub pc: Address,
    pub status: Status,
    pub waiting: Option<InterruptIndex>,
}

// SP is R15.
const STACK_POINTER: usize = 15;

// How many bytes a word takes on the stack.
const WORD_LENGTH: u32 = 4;

impl Processor {
    // All registers and bits 0, nothing waiting, and PC at an address.
    pub fn new(pc: Address) -> Processor
        ensures { result ≡ blank pc }
    {
        Processor {
            registers: [Number(0); 16],
            pc,
            status: Status::default(),
            waiting: None,
        }
    }

    // The word in a register.
    pub fn register(&self, register: Register) -> Number
        ensures { result ≡ register_word self.now register }
    {
        self.registers[register.index() as usize]
    }

    // The interrupt that the next step delivers: the one that waits, while interrupts are enabled.
    pub fn due(&self) -> Option<InterruptIndex>
        ensures { result ≡ due self.now }
    {
        if self.status.enabled {
            self.waiting
        } else {
            None
        }
    }

    // The processor with a word in a register.
    pub fn with_register(mut self, register: Register, word: Number) -> Processor
        ensures { result ≡ with_register self register word }
    {
        self.registers[usize::from(register.index())] = word;
        self
    }

    pub fn with_pc(self, pc: Address) -> Processor
        ensures { result ≡ with_pc self pc }
    {
        Processor { pc, ..self }
    }

    pub fn with_status(self, status: Status) -> Processor
        ensures { result ≡ with_status self status }
    {
        Processor { status, ..self }
    }

    // The address of the top of the stack, which SP holds.
    pub fn stack_top(&self) -> Address
        ensures { result ≡ stack_top self.now }
    {
        Address::from(self.registers[STACK_POINTER])
    }

    // SP moved by a count of bytes, wrapping at 2^32.
    fn stack_moved(mut self, count: u32) -> Processor
        ensures { result ≡ stack_moved self count }
    {
        let pointer = &mut self.registers[STACK_POINTER];
        *pointer = Number(pointer.0.wrapping_add(count));
        self
    }

    // SP one word lower.
    pub fn stack_lowered(self) -> Processor
        ensures { result ≡ lowered self }
    {
        self.stack_moved(WORD_LENGTH.wrapping_neg())
    }

    // SP one word higher.
    pub fn stack_raised(self) -> Processor
        ensures { result ≡ raised self }
    {
        self.stack_moved(WORD_LENGTH)
    }
}
