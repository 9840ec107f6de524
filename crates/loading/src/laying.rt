// The bytes of a program, into a store.
ghost use Rattle.std.specs.Prelude.{◌≡◌, length};
ghost use Rattle.codec.specs.Encoding.{bytes};
ghost use Rattle.loading.specs.Laid.{HoldsFixed, OthersStay, ReadsAsListed, laid, vacancy};
ghost use Rattle.program.specs.Programs.{program_bytes};
ghost use Rattle.quantity.specs.Sums.{later};

use cisca::instruction::Instruction;
use codec::writer::encode;
use memory::Store;
use memory::fault::StoreFault;
use quantity::Address;

// Whether `count` bytes may be written from an address on, wrapping at 2^32; the first that may
// not refuses. Nothing changes.
// A try_fold over the range would carry the address as its value and use no item, and be no plainer.
pub fn vacant<S: Store>(store: &S, at: Address, count: usize) -> Result<(), StoreFault>
    ensures { result ≡ vacancy (S.Readable.cells store.now) at count }
{
    let mut next = at;
    for _k in 0..count {
        store.writable(next)?;
        next = next.later(1);
    }
    Ok(())
}

// Writes bytes from an address on; one that is refused is left out.
fn lay<S: Store>(store: &mut S, at: Address, source: &[u8])
    ensures { S.Readable.cells store.new ≡ laid (S.Readable.cells store.old) at source.now }
{
    let mut next = at;
    for byte in source {
        let _ = store.write(next, *byte);
        next = next.later(1);
    }
}

// Writes an instruction's bytes from an address on, and answers the address behind them.
fn lay_instruction<S: Store>(store: &mut S, at: Address, instruction: &Instruction) -> Address
    ensures after { S.Readable.cells store.new ≡ laid (S.Readable.cells store.old) at (bytes instruction.now) }
    ensures behind { result ≡ later at (length (bytes instruction.now)) }
{
    let bytes = encode(instruction);
    lay(store, at, &bytes);
    at.later(bytes.len() as u32)
}

// Writes a program's bytes from an address on, wrapping at 2^32; a byte that is refused is left
// out. Where the range is vacant and does not wrap, the bytes are then there and no other address
// is changed, and the range, once it is sealed, reads as the program.
pub fn lay_program<S: Store>(store: &mut S, at: Address, program: &[Instruction])
    ensures after { S.Readable.cells store.new ≡ laid (S.Readable.cells store.old) at (program_bytes program.now) }
    ensures others_stay { OthersStay (S.Readable.cells store.old) (S.Readable.cells store.new) at (program_bytes program.now) }
    ensures holds_fixed { HoldsFixed (S.Readable.cells store.old) (S.Readable.cells store.new) at (program_bytes program.now) }
    ensures reads_as_listed { ReadsAsListed (S.Readable.cells store.old) (S.Readable.cells store.new) at program.now }
{
    let mut next = at;
    for instruction in program {
        next = lay_instruction(store, next, instruction);
    }
}
