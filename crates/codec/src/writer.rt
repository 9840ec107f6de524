// Instructions into bytes.
ghost use Rattle.std.specs.Prelude.{◌≡◌, ◌+◌, ◌≤◌, ◌++◌, length};
ghost use Rattle.arrayvec.specs.ArrayVec.{array_vec_len};
ghost use Rattle.codec.specs.Encoding.{bytes, bytes_if, mode_byte, operand_bytes};
ghost use Rattle.codec.specs.Laws.{ReadFromFront};
ghost use Rattle.codec.specs.Writing.{overlaid, written};

use crate::fault::WriteFault;
use arrayvec::ArrayVec;
use cisca::instruction::Instruction;
use operands::operand::Operand;
use quantity::{Address, Displacement, Number};

// The bytes of an instruction, at most 11, which use no heap.
pub type Encoding = ArrayVec<u8, 11>;

// The mode in the high four bits, the register's number or 0 in the low four.
fn mode_byte(operand: Operand) -> u8
    ensures { result ≡ mode_byte operand }
{
    let digit = match operand {
        Operand::Register(register)
        | Operand::Indirect(register)
        | Operand::Relative(register, _)
        | Operand::Indexed(_, register) => register.index(),
        Operand::Immediate(_) | Operand::Direct(_) | Operand::PcRelative(_) => 0,
    };
    operand.mode().number() * 16 + digit
}

// How many bytes an operand has.
fn operand_length(operand: Operand) -> usize
    ensures value { result ≡ length (operand_bytes operand) }
    ensures bound { result ≤ 5 }
{
    match operand {
        Operand::Immediate(_) | Operand::Direct(_) | Operand::Indexed(..) => 5,
        Operand::Relative(..) | Operand::PcRelative(_) => 3,
        Operand::Register(_) | Operand::Indirect(_) => 1,
    }
}

// The bytes of an operand, or none, behind those that are there.
fn push_operand(bytes: &mut Encoding, operand: Option<Operand>)
    requires { array_vec_len bytes.old + 5 ≤ 11 }
    ensures { bytes.new.items ≡ bytes.old.items ++ bytes_if operand }
{
    let Some(operand) = operand else {
        return;
    };
    bytes.push(mode_byte(operand));
    match operand {
        Operand::Immediate(Number(n))
        | Operand::Direct(Address(n))
        | Operand::Indexed(Address(n), _) => {
            bytes.try_extend_from_slice(&n.to_le_bytes()).unwrap();
        }
        Operand::Relative(_, Displacement(n)) | Operand::PcRelative(Displacement(n)) => {
            bytes.try_extend_from_slice(&n.to_le_bytes()).unwrap();
        }
        Operand::Register(_) | Operand::Indirect(_) => {}
    }
}

// How many bytes an instruction has, from 1 to 11. Told by the modes, since a caller that only plans
// needs no bytes.
pub fn encoded_length(instruction: &Instruction) -> usize
    ensures value { result ≡ length (bytes instruction.now) }
    ensures bound { result ≤ 11 }
{
    let first = instruction.first().map_or(0, operand_length);
    let second = instruction.second().map_or(0, operand_length);
    1 + first + second
}

// The bytes of an instruction.
pub fn encode(instruction: &Instruction) -> Encoding
    ensures { result.items ≡ bytes instruction.now }
{
    let mut bytes = ArrayVec::new();
    bytes.push(instruction.operation().code());
    push_operand(&mut bytes, instruction.first());
    push_operand(&mut bytes, instruction.second());
    bytes
}

// Writes an instruction to the front of a buffer, and answers how many bytes it has. A buffer that
// is too short is left as it was.
#[tactic(auto, using(crate::proofs::Fronts::read_from_front))]
pub fn write(instruction: &Instruction, out: &mut [u8]) -> Result<usize, WriteFault>
    ensures answers { result ≡ written (bytes instruction.now) (length out.old) }
    ensures after { out.new ≡ overlaid (bytes instruction.now) out.old }
    ensures reads_back { ReadFromFront instruction.now }
{
    let bytes = encode(instruction);
    let size = bytes.len();
    if out.len() < size {
        return Err(WriteFault::Short);
    }
    out[..size].copy_from_slice(&bytes);
    Ok(size)
}
