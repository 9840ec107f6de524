// A whole program into the caller's buffer, after a first run that only measures.
ghost use Rattle.std.specs.Prelude.{◌≡◌, length};
ghost use Rattle.codec.specs.Writing.{overlaid, written};
ghost use Rattle.program.specs.Laws.{ProgramReadWhole};
ghost use Rattle.program.specs.Programs.{program_bytes};

use cisca::instruction::Instruction;
use codec::fault::WriteFault;
use codec::writer::{encoded_length, write};

// How many bytes a program has, where there is room for them.
pub fn measure(program: &[Instruction], room: usize) -> Result<usize, WriteFault>
    ensures { result ≡ written (program_bytes program.now) room }
{
    let mut left = room;
    for instruction in program {
        left = left
            .checked_sub(encoded_length(instruction))
            .ok_or(WriteFault::Short)?;
    }
    Ok(room - left)
}

// Writes a program to the front of a buffer, and answers how many bytes it has. A buffer that is
// too short is left as it was.
#[tactic(auto, using(crate::proofs::Laws::program_read_whole))]
pub fn write_program(program: &[Instruction], out: &mut [u8]) -> Result<usize, WriteFault>
    ensures answers { result ≡ written (program_bytes program.now) (length out.old) }
    ensures after { out.new ≡ overlaid (program_bytes program.now) out.old }
    ensures reads_back { ProgramReadWhole program.now }
{
    let total = measure(program, out.len())?;
    // A place is plainer than a slice that shrinks, whose loan each round would hand on.
    let mut at = 0;
    for instruction in program {
        // What was measured fits.
        at += write(instruction, &mut out[at..]).unwrap();
    }
    Ok(total)
}
