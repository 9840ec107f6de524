// Why a step is refused. The store's fault is carried up whole: the `?` at each level says which part
// of the instruction met it.
ghost use Rattle.std.specs.Prelude.{◌≡◌, Some, refl};
ghost use Rattle.processor.specs.Faults.{address_of, by_part, number_of, part_of, port_of, word_of};
ghost use Rattle.processor.specs.declared.fault.Cause.{Cause};
ghost use Rattle.processor.specs.declared.fault.Cause.TheVariants as cause;
ghost use Rattle.processor.specs.declared.fault.Part.{Part};
ghost use Rattle.processor.specs.declared.fault.Part.TheVariants as part;
ghost use Rattle.processor.specs.declared.fault.PartFault.{PartFault};

use crate::interrupt::making::IndexFault;
use ports::fault::PortFault;
use quantity::{Address, Port};
use std::marker::PhantomData;
use words::fault::WordFault;

// A word's fault, met at the part `P` of an instruction. The part is in the type alone.
#[derive_where(Clone, Copy, PartialEq, Eq, Debug)]
pub struct PartFault<P> {
    pub word: WordFault,
    at: PhantomData<P>,
}

// A part of an instruction that reads or writes words of the store.
pub trait WordPart {
    // The part that a refusal names.
    ghost part: { Part };

    // The cause that such a fault is.
    ghost cause: { PartFault Self → Cause };

    fn cause(fault: PartFault<Self>) -> Cause
        ensures { result ≡ cause fault };

    // The cause names this part, and keeps the word's fault.
    ghost names_part: { (f : PartFault Self) → part_of (cause f) ≡ Some part };

    ghost keeps_word: { (f : PartFault Self) → word_of (cause f) ≡ Some f.word };
}

// A source operand.
#[derive(Clone, Copy, PartialEq, Eq, Debug)]
pub struct SourcePart;

// A destination operand.
#[derive(Clone, Copy, PartialEq, Eq, Debug)]
pub struct DestinationPart;

// A word of the stack.
#[derive(Clone, Copy, PartialEq, Eq, Debug)]
pub struct StackPart;

// The vector of an interrupt.
#[derive(Clone, Copy, PartialEq, Eq, Debug)]
pub struct VectorPart;

// A source operand cannot be read.
pub type SourceFault = PartFault<SourcePart>;

// A destination operand cannot be read or written.
pub type DestinationFault = PartFault<DestinationPart>;

// A word of the stack cannot be read or written.
pub type StackFault = PartFault<StackPart>;

// The vector of an interrupt cannot be read.
pub type VectorFault = PartFault<VectorPart>;

// What a step was refused for.
#[derive(Clone, Copy, PartialEq, Eq, Debug)]
pub enum Cause {
    Source(SourceFault),
    Destination(DestinationFault),
    Stack(StackFault),
    Vector(VectorFault),
    Port(PortFault),
    // INT names no interrupt.
    Index(IndexFault),
    // No program is loaded.
    NoProgram,
    // No instruction starts at PC.
    NoStart,
    // The journal has no room for the step.
    JournalFull,
}

// The part of an instruction that was refused.
#[derive(Clone, Copy, PartialEq, Eq, Debug)]
pub enum Part {
    Source,
    Destination,
    Stack,
    Vector,
    Port,
}

// The refusal of a step: its cause, and PC as it stood.
#[derive(Clone, Copy, PartialEq, Eq, Debug)]
pub struct StepFault {
    pub cause: Cause,
    pub pc: Address,
}

// Four impls alike but for a name: each says which variant of `Cause` its part is.
impl WordPart for SourcePart {
    ghost part = { part.Source };

    ghost cause = { cause.Source };

    ghost names_part = { λ f. refl };

    ghost keeps_word = { λ f. refl };

    fn cause(fault: SourceFault) -> Cause
        ensures { result ≡ cause.Source fault }
    {
        Cause::Source(fault)
    }
}

impl WordPart for DestinationPart {
    ghost part = { part.Destination };

    ghost cause = { cause.Destination };

    ghost names_part = { λ f. refl };

    ghost keeps_word = { λ f. refl };

    fn cause(fault: DestinationFault) -> Cause
        ensures { result ≡ cause.Destination fault }
    {
        Cause::Destination(fault)
    }
}

impl WordPart for StackPart {
    ghost part = { part.Stack };

    ghost cause = { cause.Stack };

    ghost names_part = { λ f. refl };

    ghost keeps_word = { λ f. refl };

    fn cause(fault: StackFault) -> Cause
        ensures { result ≡ cause.Stack fault }
    {
        Cause::Stack(fault)
    }
}

impl WordPart for VectorPart {
    ghost part = { part.Vector };

    ghost cause = { cause.Vector };

    ghost names_part = { λ f. refl };

    ghost keeps_word = { λ f. refl };

    fn cause(fault: VectorFault) -> Cause
        ensures { result ≡ cause.Vector fault }
    {
        Cause::Vector(fault)
    }
}

// By hand, here and below: the From that a derive writes has no contract, and clauses name what `?` makes.
impl<P> From<WordFault> for PartFault<P> {
    ghost from_gives = { λ x y. y ≡ by_part x };

    fn from(word: WordFault) -> PartFault<P> {
        PartFault {
            word,
            at: PhantomData,
        }
    }
}

impl<P: WordPart> From<PartFault<P>> for Cause {
    ghost from_gives = { λ x y. y ≡ P.cause x };

    fn from(fault: PartFault<P>) -> Cause {
        P::cause(fault)
    }
}

impl From<PortFault> for Cause {
    ghost from_gives = { λ x y. y ≡ cause.Port x };

    fn from(fault: PortFault) -> Cause {
        Cause::Port(fault)
    }
}

impl From<IndexFault> for Cause {
    ghost from_gives = { λ x y. y ≡ cause.Index x };

    fn from(fault: IndexFault) -> Cause {
        Cause::Index(fault)
    }
}

impl Cause {
    // The fault of the word that was refused.
    fn word(self) -> Option<WordFault>
        ensures { result ≡ word_of self }
    {
        match self {
            Cause::Source(PartFault { word, .. })
            | Cause::Destination(PartFault { word, .. })
            | Cause::Stack(PartFault { word, .. })
            | Cause::Vector(PartFault { word, .. }) => Some(word),
            _ => None,
        }
    }
}

impl StepFault {
    // The refusal's number: 10 to 12 for what is not there or fixed, 20, 25, 26 or 28.
    pub fn number(self) -> u8
        ensures { result ≡ number_of self.cause }
    {
        match self.cause {
            Cause::Source(PartFault { word, .. })
            | Cause::Destination(PartFault { word, .. })
            | Cause::Stack(PartFault { word, .. })
            | Cause::Vector(PartFault { word, .. }) => word.number(),
            Cause::Port(fault) => fault.number(),
            Cause::Index(_) => 26,
            Cause::NoProgram => 20,
            Cause::NoStart => 25,
            Cause::JournalFull => 28,
        }
    }

    // The address that a store refused.
    pub fn address(self) -> Option<Address>
        ensures { result ≡ address_of self.cause }
    {
        self.cause.word().map(|word| word.address())
    }

    // The port that a bank refused.
    pub fn port(self) -> Option<Port>
        ensures { result ≡ port_of self.cause }
    {
        match self.cause {
            Cause::Port(fault) => Some(fault.port()),
            _ => None,
        }
    }

    // The part that was refused; 20, 25, 26 and 28 have none.
    pub fn part(self) -> Option<Part>
        ensures { result ≡ part_of self.cause }
    {
        match self.cause {
            Cause::Source(_) => Some(Part::Source),
            Cause::Destination(_) => Some(Part::Destination),
            Cause::Stack(_) => Some(Part::Stack),
            Cause::Vector(_) => Some(Part::Vector),
            Cause::Port(_) => Some(Part::Port),
            _ => None,
        }
    }
}
