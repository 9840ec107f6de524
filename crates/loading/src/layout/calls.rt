// What is asked of a layout.
ghost use Rattle.std.specs.Prelude.{◌≡◌, [], is_ok, IfOk, None, slice_index_or};
ghost use Rattle.loading.specs.Layouts.{fits, none_listed, relisted, starting, taking_up};
ghost use Rattle.loading.specs.Listed.{program_of};

use crate::layout::fault::LayoutFault;
use crate::layout::rows::push_program;
use crate::layout::{Layout, MOST_BYTES};
use cisca::instruction::Instruction;
use program::write::measure;
use std::alloc::{AllocError, Global};

impl Layout {
    // A layout of no program, with room for one of 4096 bytes.
    pub fn new(heap: Global) -> Result<Layout, AllocError>
        ensures { IfOk result (λ l. program_of l ≡ []) }
    {
        let records = Vec::with_capacity(heap, MOST_BYTES)?;
        Ok(Layout { records })
    }

    // Whether it has no record.
    pub fn is_empty(&self) -> bool
        ensures { result ≡ none_listed (program_of self.now) }
    {
        self.records.is_empty()
    }

    // Takes up a program. A layout that has a record stays as it was, and a program of more than
    // 4096 bytes is not taken up.
    #[tactic(auto, using(crate::proofs::Offsets::no_rows, crate::proofs::Offsets::records_laid))]
    pub fn lay_out(&mut self, program: &[Instruction]) -> Result<(), LayoutFault>
        ensures answers { result ≡ taking_up (program_of self.old) program.now }
        ensures taken_up { is_ok result ≡ fits (program_of self.old) program.now }
        ensures after { program_of self.new ≡ relisted (program_of self.old) program.now }
    {
        if !self.is_empty() {
            return Err(LayoutFault::Listed);
        }
        measure(program, MOST_BYTES)?;
        push_program(&mut self.records, program);
        Ok(())
    }

    // What stands at an offset: a record at its first byte, and nothing elsewhere. A function of its own with a test by
    // hand: a wrong index is then refused by this clause, and not because a proof no longer fits.
    fn row(&self, offset: usize) -> Option<Instruction>
        ensures { result ≡ slice_index_or self.now.records.items offset None }
    {
        if offset < self.records.len() {
            self.records[offset]
        } else {
            None
        }
    }

    // The record that starts at an offset from the program's first byte.
    pub fn starting(&self, offset: usize) -> Option<Instruction>
        ensures { result ≡ starting (program_of self.now) offset }
    {
        self.row(offset)
    }
}
