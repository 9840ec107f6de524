// Sums, differences and products.
// Two words and a status stay three parameters: a struct would be made only to be taken apart.
ghost use Rattle.std.specs.Prelude.{◌≡◌};
ghost use Rattle.arithmetic.specs.Results.{added, multiplied, subtracted};

use crate::status::Status;
use quantity::Number;

// The sum; C is the carry out of bit 31.
pub(crate) fn add(a: Number, b: Number, status: Status) -> (Number, Status)
    ensures { result ≡ added a b status }
{
    let (sum, carry) = a.0.overflowing_add(b.0);
    let (_, overflow) = a.0.cast_signed().overflowing_add(b.0.cast_signed());
    status.with_result(sum, carry, overflow)
}

// The difference; C is the borrow.
pub(crate) fn sub(a: Number, b: Number, status: Status) -> (Number, Status)
    ensures { result ≡ subtracted a b status }
{
    let difference = a.0.wrapping_sub(b.0);
    let (_, overflow) = a.0.cast_signed().overflowing_sub(b.0.cast_signed());
    status.with_result(difference, a.0 < b.0, overflow)
}

// The product; C stays.
pub(crate) fn mul(a: Number, b: Number, status: Status) -> (Number, Status)
    ensures { result ≡ multiplied a b status }
{
    let product = a.0.wrapping_mul(b.0);
    let (_, overflow) = a.0.cast_signed().overflowing_mul(b.0.cast_signed());
    status.with_result(product, status.carry, overflow)
}
