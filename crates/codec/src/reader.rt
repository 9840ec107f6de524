// A reader that moves over a source, and a look ahead that puts its place back.
ghost use Rattle.std.specs.Prelude.{◌≡◌};
ghost use Rattle.codec.specs.Laws.{ReadsBack, StopsAtFirstFault, WritesBack};
ghost use Rattle.codec.specs.Readers.{answer, ended, place_after, read};

use crate::decode::Cursor;
use crate::fault::{Place, ReadFault};
use crate::source::Source;
use cisca::instruction::Instruction;

// Puts a reader's place back when it is dropped, on every way out.
// A rule of the project: a look ahead goes by a guard, so that no way out can forget the place.
struct PlaceGuard<'a> {
    place: &'a mut Place,
    saved: Place,
}

impl Drop for PlaceGuard<'_> {
    fn drop(self)
        ensures { self.exit.0.now ≡ self.entry.saved }
    {
        *self.place = self.saved;
        let PlaceGuard { place: _, saved: _ } = self;
    }
}

// The instruction at the place, which moves behind it; a refusal does not move it.
pub fn read_next<S: Source>(source: &S, place: &mut Place) -> Result<Instruction, ReadFault>
    ensures answers { read result ≡ answer (S.Source.shows source.now) place.old.offset }
    ensures moves { place.new.offset ≡ place_after (S.Source.shows source.now) place.old.offset }
{
    let mut cursor = Cursor {
        source,
        place: *place,
    };
    let instruction = cursor.instruction()?;
    *place = cursor.place;
    Ok(instruction)
}

// A source with a place in it.
#[derive(Drop)]
pub struct Reader<S: Source> {
    source: S,
    place: Place,
}

impl<S: Source> Reader<S> {
    // A reader at the first byte of a source.
    pub fn new(source: S) -> Reader<S>
        ensures over { result.source ≡ source }
        ensures first { result.place.offset ≡ 0 }
    {
        Reader {
            source,
            place: Place { offset: 0 },
        }
    }

    // Where the next reading begins.
    pub fn place(&self) -> Place
        ensures { result ≡ self.now.place }
    {
        self.place
    }

    // Whether there is no byte at the place.
    pub fn is_at_end(&self) -> bool
        ensures { result ≡ ended (S.Source.shows self.now.source self.now.place.offset) }
    {
        self.source.byte_at(self.place.offset).is_none()
    }

    // The next instruction. A refusal names the first byte at fault, and does not move the place.
    // No `Iterator`, since a refusal is answered again at each call: what it hands out has no end.
    pub fn next(&mut self) -> Result<Instruction, ReadFault>
        ensures answers { read result ≡ answer (S.Source.shows self.old.source) self.old.place.offset }
        ensures moves { self.new.place.offset ≡ place_after (S.Source.shows self.old.source) self.old.place.offset }
        ensures same { self.new.source ≡ self.old.source }
        ensures reads_back { ReadsBack (S.Source.shows self.old.source) self.old.place.offset result }
        ensures writes_back { WritesBack (S.Source.shows self.old.source) self.old.place.offset self.new.place.offset result }
        ensures stops_at_first_fault { StopsAtFirstFault (S.Source.shows self.old.source) self.old.place.offset result }
    {
        read_next(&self.source, &mut self.place)
    }

    // The next instruction or its refusal; the reader is as it was.
    pub fn peek(&mut self) -> Result<Instruction, ReadFault>
        ensures answers { read result ≡ answer (S.Source.shows self.old.source) self.old.place.offset }
        ensures same { self.new ≡ self.old }
    {
        let saved = self.place;
        let guard = PlaceGuard {
            place: &mut self.place,
            saved,
        };
        read_next(&self.source, guard.place)
    }
}
