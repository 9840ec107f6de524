// The operations on the single bits of words.
ghost use Rattle.std.specs.Prelude.{◌≡◌};
ghost use Rattle.arithmetic.specs.Results.{logical};

use crate::status::Status;
use quantity::Number;

// The word; C and V are cleared.
pub(crate) fn clear(status: Status, word: u32) -> (Number, Status)
    ensures { result ≡ logical status word }
{
    status.with_result(word, false, false)
}
