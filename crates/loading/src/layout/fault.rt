// Why a layout does not take a program up.
ghost use Rattle.std.specs.Prelude.{◌≡◌};
ghost use Rattle.loading.specs.declared.layout.fault.LayoutFault.TheVariants as fault;

use codec::fault::WriteFault;

#[derive(Clone, Copy, PartialEq, Eq, Debug)]
pub enum LayoutFault {
    // It has a record already.
    Listed,
    // The program has more than 4096 bytes.
    TooLong,
}

// By hand: the From that a derive writes has no contract, and a clause names what `?` makes.
impl From<WriteFault> for LayoutFault {
    ghost from_gives = { λ _ y. y ≡ fault.TooLong };

    fn from(_short: WriteFault) -> LayoutFault {
        LayoutFault::TooLong
    }
}
