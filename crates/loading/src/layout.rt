// The layout of a program: for each offset, the record that starts there.
ghost use Rattle.std.specs.Prelude.{◌≡◌, ◌≤◌, vec_capacity};
ghost use Rattle.loading.specs.Layouts.{laid_out, listed_records};

use cisca::instruction::Instruction;

pub mod calls;
pub mod fault;
mod rows;

// How many bytes a program may have.
pub const MOST_BYTES: usize = 4096;

// A record stands at the offset of its first byte, and nothing at those of its other bytes, so that
// the record that starts at an offset is found at once.
#[derive(Drop)]
pub struct Layout {
    records: Vec<Option<Instruction>>,
    // There is room for a program of 4096 bytes.
    ghost room: { 4096 ≤ vec_capacity records },
    // It is the layout of the records in it.
    ghost lays: { records.items ≡ laid_out (listed_records records.items) },
}
