// The operations, with their bytes, mnemonics and operand groups.
ghost use Rattle.std.specs.Prelude.{◌≡◌, ◌==◌, ◌<◌, length, map, option_map, slice_index_or, Some};
ghost use Rattle.std.specs.Fmt.{padded};
ghost use Rattle.std.specs.List.{find};
ghost use Rattle.cisca.specs.Table.{OperationOf, all_rows, code, code_in, filled, group, letters, name, operation_in, operations, row_in, row_of};
ghost use Rattle.cisca.specs.declared.operation.Operation.{Operation};
ghost use Rattle.cisca.specs.declared.operation.Operation.TheVariants.{Nop};

use operands::group::Group;
use std::fmt;

// The operations, in the order of their bytes.
#[derive(Clone, Copy, Debug, PartialEq, Eq)]
pub enum Operation {
    Nop,
    Sti,
    Cli,
    Mov,
    Push,
    Pop,
    Add,
    Sub,
    Mul,
    Div,
    Inc,
    Dec,
    Cmp,
    Neg,
    And,
    Or,
    Xor,
    Test,
    Not,
    Sal,
    Sar,
    Jmp,
    Je,
    Jne,
    Jl,
    Jle,
    Jg,
    Jge,
    Call,
    Ret,
    Int,
    Iret,
    In,
    Out,
}

// A byte that no operation has.
#[derive(Clone, Copy, PartialEq, Eq, Debug)]
pub struct UnknownOperation(pub u8);

// One row of the table.
#[derive(Clone, Copy)]
struct Row {
    operation: Operation,
    code: u8,
    name: &'static str,
    group: Group,
}

// The operations in the order of their bytes, which is the order of the variants. It is what is read
// to write an operation, to read one and to show one.
const OPERATIONS: [Row; 34] = [
    Row {
        operation: Operation::Nop,
        code: 0x00,
        name: "NOP",
        group: Group::Bare,
    },
    Row {
        operation: Operation::Sti,
        code: 0x01,
        name: "STI",
        group: Group::Bare,
    },
    Row {
        operation: Operation::Cli,
        code: 0x02,
        name: "CLI",
        group: Group::Bare,
    },
    Row {
        operation: Operation::Mov,
        code: 0x10,
        name: "MOV",
        group: Group::Pair,
    },
    Row {
        operation: Operation::Push,
        code: 0x11,
        name: "PUSH",
        group: Group::Single,
    },
    Row {
        operation: Operation::Pop,
        code: 0x12,
        name: "POP",
        group: Group::Single,
    },
    Row {
        operation: Operation::Add,
        code: 0x20,
        name: "ADD",
        group: Group::Pair,
    },
    Row {
        operation: Operation::Sub,
        code: 0x21,
        name: "SUB",
        group: Group::Pair,
    },
    Row {
        operation: Operation::Mul,
        code: 0x22,
        name: "MUL",
        group: Group::Pair,
    },
    Row {
        operation: Operation::Div,
        code: 0x23,
        name: "DIV",
        group: Group::Pair,
    },
    Row {
        operation: Operation::Inc,
        code: 0x24,
        name: "INC",
        group: Group::Single,
    },
    Row {
        operation: Operation::Dec,
        code: 0x25,
        name: "DEC",
        group: Group::Single,
    },
    Row {
        operation: Operation::Cmp,
        code: 0x26,
        name: "CMP",
        group: Group::Pair,
    },
    Row {
        operation: Operation::Neg,
        code: 0x27,
        name: "NEG",
        group: Group::Single,
    },
    Row {
        operation: Operation::And,
        code: 0x30,
        name: "AND",
        group: Group::Pair,
    },
    Row {
        operation: Operation::Or,
        code: 0x31,
        name: "OR",
        group: Group::Pair,
    },
    Row {
        operation: Operation::Xor,
        code: 0x32,
        name: "XOR",
        group: Group::Pair,
    },
    Row {
        operation: Operation::Test,
        code: 0x33,
        name: "TEST",
        group: Group::Pair,
    },
    Row {
        operation: Operation::Not,
        code: 0x34,
        name: "NOT",
        group: Group::Single,
    },
    Row {
        operation: Operation::Sal,
        code: 0x35,
        name: "SAL",
        group: Group::Pair,
    },
    Row {
        operation: Operation::Sar,
        code: 0x36,
        name: "SAR",
        group: Group::Pair,
    },
    Row {
        operation: Operation::Jmp,
        code: 0x40,
        name: "JMP",
        group: Group::Target,
    },
    Row {
        operation: Operation::Je,
        code: 0x41,
        name: "JE",
        group: Group::Jump,
    },
    Row {
        operation: Operation::Jne,
        code: 0x42,
        name: "JNE",
        group: Group::Jump,
    },
    Row {
        operation: Operation::Jl,
        code: 0x43,
        name: "JL",
        group: Group::Jump,
    },
    Row {
        operation: Operation::Jle,
        code: 0x44,
        name: "JLE",
        group: Group::Jump,
    },
    Row {
        operation: Operation::Jg,
        code: 0x45,
        name: "JG",
        group: Group::Jump,
    },
    Row {
        operation: Operation::Jge,
        code: 0x46,
        name: "JGE",
        group: Group::Jump,
    },
    Row {
        operation: Operation::Call,
        code: 0x47,
        name: "CALL",
        group: Group::Target,
    },
    Row {
        operation: Operation::Ret,
        code: 0x48,
        name: "RET",
        group: Group::Bare,
    },
    Row {
        operation: Operation::Int,
        code: 0x49,
        name: "INT",
        group: Group::Target,
    },
    Row {
        operation: Operation::Iret,
        code: 0x4a,
        name: "IRET",
        group: Group::Bare,
    },
    Row {
        operation: Operation::In,
        code: 0x50,
        name: "IN",
        group: Group::Inward,
    },
    Row {
        operation: Operation::Out,
        code: 0x51,
        name: "OUT",
        group: Group::Outward,
    },
];

// The table's rows.
fn table() -> &'static [Row; 34]
    ensures rows { map row_in result.now ≡ all_rows }
    ensures operations { map operation_in result.now ≡ operations }
{
    &OPERATIONS
}

// The row of the operation at a place.
fn row_at(place: usize) -> &'static Row
    requires { place < length operations }
    ensures { row_in result.now ≡ row_of (slice_index_or operations place Nop) }
{
    &table()[place]
}

impl Operation {
    // Where the operation stands among all.
    fn place(self) -> usize
        ensures stands { slice_index_or operations result Nop ≡ self }
        ensures below { result < length operations }
    {
        self as usize
    }

    // The operation's row.
    fn row(self) -> &'static Row
        ensures { row_in result.now ≡ row_of self }
    {
        row_at(self.place())
    }

    // The operation's byte.
    // A method and not From: it is one of the row's three facts, and is read as the others are.
    #[tactic(auto, using(crate::proofs::Codes::code_tells))]
    pub fn code(self) -> u8
        ensures byte { result ≡ code self }

        // No other operation has it, so `==` of two operations says whether their bytes are the same.
        ensures tells { (other : Operation) → code other ≡ result → other ≡ self }
    {
        self.row().code
    }

    // The operation's name, in two to four capitals.
    pub fn mnemonic(self) -> &'static str
        ensures name { result.now ≡ name self }
        ensures letters { filled result.now ≡ letters self }
    {
        self.row().name
    }

    // Which operands the operation takes.
    pub fn group(self) -> Group
        ensures { result ≡ group self }
    {
        self.row().group
    }
}

// The operation of the first of these rows with this byte.
fn first_with(rows: &[Row], byte: u8) -> Option<Operation>
    ensures { result ≡ option_map operation_in (find (λ r. code_in r == byte) rows.now) }
{
    rows.iter()
        .find(|row| row.code == byte)
        .map(|row| row.operation)
}

impl TryFrom<u8> for Operation {
    type Error = UnknownOperation;

    ghost try_from_gives = { OperationOf };

    fn try_from(byte: u8) -> Result<Operation, UnknownOperation> {
        first_with(table(), byte).ok_or(UnknownOperation(byte))
    }
}

impl fmt::Display for Operation {
    ghost output = { λ operation. Some (name operation) };

    ghost styled_output = { λ operation spec. Some (padded spec (name operation)) };

    fn fmt<W: fmt::Write>(&self, f: &mut fmt::Formatter<W>) -> fmt::Result {
        f.pad(self.mnemonic())
    }
}
