// Reads a program's bytes from standard input, prints each instruction with its place and its
// bytes, writes the program back, and says whether the bytes are the same.
#![tactic(auto)]

use cisca::instruction::Instruction;
use cisca::operation::Operation;
use codec::reader::Reader;
use codec::source::ByteString;
use program::read::read_program;
use program::write::write_program;
use std::alloc::Global;
use std::io;
use std::io::Read;

fn main(rt: HostRuntime) -> anyhow::Result<()> {
    let mut input = Vec::new(rt.alloc());
    rt.stdin().read_to_end(&mut input)?;
    println!(rt; "bytes read: {}", input.len())?;
    list(&rt, &input)?;
    write_back(&rt, rt.alloc(), &input)
}

// Prints a line for each instruction, up to the end or the first refusal.
fn list(rt: &impl Print, input: &[u8]) -> io::Result<()> {
    let mut reader = Reader::new(ByteString(input));
    while !reader.is_at_end() {
        let start = reader.place().offset;
        match reader.next() {
            Ok(instruction) => {
                let bytes = input.get(start..reader.place().offset).unwrap_or(&[]);
                print_line(rt, start, bytes, instruction)?;
            }
            Err(fault) => {
                println!(rt;
                    "refused with {} at place {}: {}",
                    fault.number(),
                    fault.place.offset,
                    fault.cause
                )?;
                break;
            }
        }
    }
    Ok(())
}

// An instruction with its place and its bytes.
fn print_line(
    rt: &impl Print,
    place: usize,
    bytes: &[u8],
    instruction: Instruction,
) -> io::Result<()> {
    print!(rt; "{place:04}  ")?;
    for byte in bytes {
        print!(rt; "{byte:02X} ")?;
    }
    for _ in bytes.len()..11 {
        print!(rt; "   ")?;
    }
    println!(rt; " {instruction}")
}

// Reads the whole program into records, writes them back, and compares.
fn write_back(rt: &impl Print, alloc: Global, input: &[u8]) -> anyhow::Result<()> {
    let nop = Instruction::new(Operation::Nop, None, None).unwrap();
    let mut records = vec![in alloc; nop; input.len()]?;
    match read_program(&ByteString(input), &mut records) {
        Ok(count) => {
            records.truncate(count);
            println!(rt; "instructions read: {count}")?;
        }
        Err(fault) => {
            let number = fault.number();
            println!(rt; "the program is refused with {number}: nothing is written back")?;
            return Ok(());
        }
    }
    let mut output = vec![in alloc; 0u8; input.len()]?;
    match write_program(&records, &mut output) {
        Ok(size) => {
            output.truncate(size);
            let verdict = if output.as_slice() == input {
                "the same as were read"
            } else {
                "not those that were read"
            };
            println!(rt; "bytes written back: {size}, {verdict}")?;
        }
        Err(fault) => {
            let number = fault.number();
            println!(rt; "the writing is refused with {number}")?;
        }
    }
    Ok(())
}
