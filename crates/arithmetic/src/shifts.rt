// The shifts, each by an unsigned count.
ghost use Rattle.std.specs.Prelude.{◌≡◌};
ghost use Rattle.arithmetic.specs.Results.{left_shifted, right_shifted, shifted_left, shifted_right};

use crate::status::Status;
use quantity::Number;

// Times 2 to the count, and 0 from 32 on.
fn left(word: u32, count: u32) -> u32
    ensures { result ≡ shifted_left word count }
{
    word.checked_shl(count).unwrap_or(0)
}

// V where bit 31 is not as before; C stays.
pub(crate) fn sal(a: Number, count: Number, status: Status) -> (Number, Status)
    ensures { result ≡ left_shifted a count status }
{
    let word = left(a.0, count.0);
    let overflow = (a.0 >= 0x8000_0000) != (word >= 0x8000_0000);
    status.with_result(word, status.carry, overflow)
}

// Over 2 to the count, rounded down, and from 32 on as at 31.
fn right(word: u32, count: u32) -> u32
    ensures { result ≡ shifted_right word count }
{
    (word.cast_signed() >> count.min(31)).cast_unsigned()
}

// V is cleared; C stays.
pub(crate) fn sar(a: Number, count: Number, status: Status) -> (Number, Status)
    ensures { result ≡ right_shifted a count status }
{
    let word = right(a.0, count.0);
    status.with_result(word, status.carry, false)
}
