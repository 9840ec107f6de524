// The instructions on ports.
ghost use Rattle.std.specs.Prelude.{◌≡◌};
ghost use Rattle.execution.specs.Ports.{giving, port, taking};

use crate::planner::Planner;
use actions::action::MemoryOperand;
use memory::Store;
use operands::register::Register;
use ports::Ports;
use processor::effect::PortWrite;
use processor::fault::Cause;
use processor::state::Processor;
use quantity::Port;

impl<S: Store> Planner<'_, S> {
    // The effective address is the port's number.
    fn port_of(&self, operand: MemoryOperand) -> Port
        ensures { result ≡ port self.now.processor operand }
    {
        Port::from(self.effective_address(operand))
    }

    // IN: the processor with the port's word in the register.
    pub(crate) fn input<P: Ports>(
        &self,
        ports: &P,
        register: Register,
        operand: MemoryOperand,
    ) -> Result<Processor, Cause>
        ensures { result ≡ taking self.now.processor (P.Ports.words ports.now) register operand }
    {
        let word = ports.get(self.port_of(operand))?;
        Ok(self.processor.with_register(register, word))
    }

    // OUT: the word that is to go to the port.
    pub(crate) fn output<P: Ports>(
        &self,
        ports: &P,
        operand: MemoryOperand,
        register: Register,
    ) -> Result<PortWrite, Cause>
        ensures { result ≡ giving self.now.processor (P.Ports.words ports.now) operand register }
    {
        let port = self.port_of(operand);
        ports.get(port)?;
        Ok(PortWrite {
            port,
            word: self.processor.register(register),
        })
    }
}
