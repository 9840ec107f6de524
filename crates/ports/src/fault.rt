// Why a port is not read or written.
ghost use Rattle.std.specs.Prelude.{◌≡◌};
ghost use Rattle.ports.specs.Faults.{number_of, port_of};

use quantity::Port;

#[derive(Clone, Copy, PartialEq, Eq, Debug)]
pub enum PortFault {
    // The bank has no such port.
    Absent(Port),
}

impl PortFault {
    // The refusal's number: 12.
    pub fn number(self) -> u8
        ensures { result ≡ number_of self }
    {
        match self {
            PortFault::Absent(_) => 12,
        }
    }

    // The port that was refused.
    pub fn port(self) -> Port
        ensures { result ≡ port_of self }
    {
        match self {
            PortFault::Absent(port) => port,
        }
    }
}
