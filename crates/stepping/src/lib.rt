// One instruction done: planned, and then committed.
// The processor, the store and the bank stay apart, as callers hold them: no struct of three borrows.
#![tactic(auto)]

ghost use Rattle.std.specs.Prelude.{OnOk};
ghost use Rattle.actions.specs.Actions.{action};
ghost use Rattle.cisca.specs.Making.{parts};
ghost use Rattle.execution.specs.Executions.{delivered, executed, next_address};
ghost use Rattle.processor.specs.Views.{effected, view};
ghost use Rattle.stepping.specs.Laws.{ActionGoes, ActionStatus, ConditionsCompare, RegistersStay};
ghost use Rattle.stepping.specs.Steps.{Steps};

use cisca::instruction::Instruction;
use execution::plan::{plan, plan_delivery};
use journal::commit::commit;
use journal::entry::Entry;
use memory::Store;
use ports::Ports;
use processor::effect::Effect;
use processor::fault::StepFault;
use processor::interrupt::InterruptIndex;
use processor::state::Processor;

// Commits what was planned, and gives the entry that takes it back; a refusal changes nothing.
fn settle<S: Store, P: Ports>(
    processor: &mut Processor,
    store: &mut S,
    ports: &mut P,
    planned: Result<Effect, StepFault>,
) -> Result<Entry, StepFault>
    ensures { let before = view processor.old (S.Readable.cells store.old) (P.Ports.words ports.old) in
        let after = view processor.new (S.Readable.cells store.new) (P.Ports.words ports.new) in
        Steps (effected planned before) result before after }
{
    let effect = planned?;
    Ok(commit(processor, store, ports, effect))
}

// Does an instruction, and gives the entry that takes it back; or refuses it, and changes nothing.
pub fn execute<S: Store, P: Ports>(
    processor: &mut Processor,
    store: &mut S,
    ports: &mut P,
    instruction: &Instruction,
) -> Result<Entry, StepFault>
    ensures steps { let before = view processor.old (S.Readable.cells store.old) (P.Ports.words ports.old) in
        let after = view processor.new (S.Readable.cells store.new) (P.Ports.words ports.new) in
        Steps (executed instruction.now before) result before after }
    ensures registers { OnOk result (RegistersStay (action (parts instruction.now)) processor.old processor.new) }
    ensures status { OnOk result (ActionStatus (action (parts instruction.now)) processor.old processor.new) }
    ensures goes { OnOk result (ActionGoes (action (parts instruction.now)) processor.old.status (next_address instruction.now processor.old) processor.new.pc) }
    ensures conditions { ConditionsCompare }
{
    let planned = plan(*processor, instruction, store, ports);
    settle(processor, store, ports, planned)
}

// Delivers an interrupt, and gives the entry that takes it back; or refuses it, and changes nothing.
pub fn deliver<S: Store, P: Ports>(
    processor: &mut Processor,
    store: &mut S,
    ports: &mut P,
    index: InterruptIndex,
) -> Result<Entry, StepFault>
    ensures { let before = view processor.old (S.Readable.cells store.old) (P.Ports.words ports.old) in
        let after = view processor.new (S.Readable.cells store.new) (P.Ports.words ports.new) in
        Steps (delivered index.value before) result before after }
{
    let planned = plan_delivery(*processor, index, store, ports);
    settle(processor, store, ports, planned)
}
