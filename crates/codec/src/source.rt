// Where bytes are read from: at each place a byte, or the end.
ghost use Rattle.std.specs.Prelude.{◌≡◌, ℕ, ◌+◌, ◌^◌, ◌<◌, ◌≤◌, true, length, is_some, Some, None, Option};
ghost use Rattle.codec.specs.Sources.{listed, listed_ends, listed_small, memory_span, span_ends, span_small};

use memory::Readable;
use quantity::Address;

pub trait Source {
    // The byte at each place, or nothing.
    ghost shows: { Self → ℕ → Option ℕ };

    // A byte is below 256.
    ghost small: { (s : Self) (p b : ℕ) → shows s p ≡ Some b → b < 256 };

    // A place at and behind which there is no byte.
    ghost extent: { Self → ℕ };

    ghost ends: { (s : Self) (p : ℕ) → extent s ≤ p → shows s p ≡ None };

    // The byte at a place, or nothing.
    fn byte_at(&self, place: usize) -> Option<u8>
        ensures value { result ≡ shows self.now place }
        ensures bound { is_some result ≡ true → place + 1 < 2 ^ 64 };
}

// A byte string, which ends behind its last byte.
#[derive(Clone, Copy)]
pub struct ByteString<'a>(pub &'a [u8]);

impl<'a> Source for ByteString<'a> {
    ghost shows = { λ s. listed s.0.now };

    ghost small = { λ s. listed_small s.0.now };

    ghost extent = { λ s. length s.0.now };

    ghost ends = { λ s. listed_ends s.0.now };

    fn byte_at(&self, place: usize) -> Option<u8> {
        self.0.get(place).copied()
    }
}

// A stretch of memory: `length` bytes from the address `first` on, wrapping at 2^32. A byte that
// is absent ends it earlier.
#[derive(Drop)]
pub struct Span<'a, M: Readable> {
    pub memory: &'a M,
    pub first: Address,
    pub length: usize,
}

impl<'a, M: Readable> Source for Span<'a, M> {
    ghost shows = { λ s. memory_span (M.Readable.cells s.memory.now) s.first s.length };

    ghost small = { λ s. span_small (M.Readable.cells s.memory.now) s.first s.length };

    ghost extent = { λ s. s.length };

    ghost ends = { λ s. span_ends (M.Readable.cells s.memory.now) s.first s.length };

    fn byte_at(&self, place: usize) -> Option<u8> {
        if place >= self.length {
            return None;
        }
        let at = self.first.later((place % 0x1_0000_0000) as u32);
        self.memory.read(at).ok()
    }
}
