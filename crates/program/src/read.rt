// A whole program into the caller's list of records, after a first run that only checks.
ghost use Rattle.std.specs.Prelude.{◌≡◌, map, length};
ghost use Rattle.cisca.specs.Making.{parts};
ghost use Rattle.program.specs.Laws.{ProgramReadsBack, ProgramStopsAtFirstFault, ProgramWritesBack};
ghost use Rattle.program.specs.Programs.{counted, filled, filling, whole};

use crate::fault::ProgramFault;
use cisca::instruction::Instruction;
use codec::fault::{Place, ReadFault};
use codec::reader::read_next;
use codec::source::Source;

// How many records a source holds.
fn count<S: Source>(source: &S) -> Result<usize, ReadFault>
    ensures { result ≡ counted (whole (S.Source.shows source.now) (S.Source.extent source.now)) }
{
    // A loop is plainer: an iterator would have to end with the refusal that it hands out.
    let mut place = Place { offset: 0 };
    let mut n = 0;
    while source.byte_at(place.offset).is_some() {
        read_next(source, &mut place)?;
        n += 1;
    }
    Ok(n)
}

// Reads all of a source into the front of a list, and answers how many records there are. Where an
// instruction is refused, or the list is too short, the list is left as it was.
pub fn read_program<S: Source>(source: &S, out: &mut [Instruction]) -> Result<usize, ProgramFault>
    ensures answers { result ≡ filling (whole (S.Source.shows source.now) (S.Source.extent source.now)) (length out.old) }
    ensures after { map parts out.new ≡ filled (whole (S.Source.shows source.now) (S.Source.extent source.now)) (map parts out.old) }
    ensures reads_back { ProgramReadsBack (S.Source.shows source.now) (S.Source.extent source.now) }
    ensures writes_back { ProgramWritesBack (S.Source.shows source.now) (S.Source.extent source.now) }
    ensures stops_at_first_fault { ProgramStopsAtFirstFault (S.Source.shows source.now) (S.Source.extent source.now) }
{
    let n = count(source)?;
    if out.len() < n {
        return Err(ProgramFault::Short);
    }
    let mut place = Place { offset: 0 };
    for slot in &mut out[..n] {
        // What was counted is read again.
        *slot = read_next(source, &mut place).unwrap();
    }
    Ok(n)
}
