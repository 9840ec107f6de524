// The interrupts 0 to 63, each with a vector: the word in memory at 4 times its index.
ghost use Rattle.std.specs.Prelude.{T, nat_lt};

pub mod making;

// The index of an interrupt.
// Not one type with Register over its bound: what is done with the two has nothing in common.
#[derive(Clone, Copy, PartialEq, Eq, Debug)]
pub struct InterruptIndex {
    value: u8,
    ghost below: { T (nat_lt value 64) },
}
