// The division, rounded toward zero.
ghost use Rattle.std.specs.Prelude.{◌≡◌};
ghost use Rattle.arithmetic.specs.Laws.{Divides};
ghost use Rattle.arithmetic.specs.Marks.{Keeps, division_marks};
ghost use Rattle.arithmetic.specs.Results.{divided};

use crate::status::Status;
use quantity::Number;

// What a division gives.
#[derive(Clone, Copy, PartialEq, Eq, Debug)]
pub struct Division {
    pub quotient: Number,
    pub remainder: Number,
}

// The quotient and the remainder of a by b. By 0 there are none, and only C is set.
pub fn divide(a: Number, b: Number, status: Status) -> (Option<Division>, Status)
    ensures result { result ≡ divided a b status }
    ensures divides { Divides a b result }
    ensures marks { Keeps division_marks status result.1 }
{
    if b.0 == 0 {
        return (
            None,
            Status {
                carry: true,
                ..status
            },
        );
    }
    let (dividend, divisor) = (a.0.cast_signed(), b.0.cast_signed());
    let (whole, overflow) = dividend.overflowing_div(divisor);
    let (quotient, after) = status.with_result(whole.cast_unsigned(), false, overflow);
    let remainder = Number(dividend.wrapping_rem(divisor).cast_unsigned());
    let division = Division {
        quotient,
        remainder,
    };
    (Some(division), after)
}
