// Records put one behind the other, each with room for its bytes.
ghost use Rattle.std.specs.Prelude.{◌≡◌, ◌+◌, ◌≤◌, ◌++◌, length, vec_len, vec_capacity};
ghost use Rattle.codec.specs.Encoding.{bytes};
ghost use Rattle.loading.specs.Layouts.{laid_out, room_of};
ghost use Rattle.program.specs.Programs.{program_bytes};

use cisca::instruction::Instruction;
use codec::writer::encoded_length;

// A record at its first byte, and nothing at its other bytes. There is room for them, so that resize
// takes no memory and cannot fail.
fn push_record(rows: &mut Vec<Option<Instruction>>, instruction: &Instruction)
    requires { vec_len rows.old + length (bytes instruction.now) ≤ vec_capacity rows.old }
    ensures items { rows.new.items ≡ rows.old.items ++ room_of instruction.now }
    ensures room { vec_len rows.new ≡ vec_len rows.old + length (bytes instruction.now) }
    ensures capacity { vec_capacity rows.old ≤ vec_capacity rows.new }
{
    let end = rows.len() + encoded_length(instruction);
    rows.push_reserved(Some(*instruction));
    rows.resize(end, None).unwrap();
}

pub(crate) fn push_program(rows: &mut Vec<Option<Instruction>>, program: &[Instruction])
    requires { vec_len rows.old + length (program_bytes program.now) ≤ vec_capacity rows.old }
    ensures items { rows.new.items ≡ rows.old.items ++ laid_out program.now }
    ensures capacity { vec_capacity rows.old ≤ vec_capacity rows.new }
{
    for instruction in program {
        push_record(rows, instruction);
    }
}
