// A machine over a store and a bank.
ghost use Rattle.std.specs.Prelude.{◌≡◌, []};
ghost use Rattle.loading.specs.Listed.{program_of};

use journal::journaled::Journaled;
use loading::layout::Layout;
use memory::Store;
use memory::address_space::AddressSpace;
use memory::seal::Seal;
use ports::Ports;
use ports::port_space::PortSpace;
use quantity::Address;

mod calls;
mod load;
pub mod look;
pub mod making;
mod ready;
pub mod step;

// The caller's store lies under a seal, which covers no byte until a program is loaded and the
// program's bytes from then on. The layout has the record at each offset from the base, the address
// of the program's first byte. All the memory that it needs is taken when it is made, the layout's too:
// so while no program is loaded the layout has no record, and is no Option.
#[derive(Drop)]
pub struct Machine<S, P> {
    system: Journaled<Seal<AddressSpace<S>>, PortSpace<P>>,
    base: Address,
    layout: Layout,
    // Nothing is sealed before a program is loaded.
    ghost unsealed: { (program_of layout ≡ [] → system.memory.range.length ≡ 0) },
}
