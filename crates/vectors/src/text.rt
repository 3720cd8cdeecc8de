// The pieces of a line, each written to standard output as it is found. No buffer is lent for them:
// a proof names every slice that a function holds, at each of its steps.
use answer::{Answer, number_of};
use std::io;

pub(crate) fn print_byte(rt: &impl Print, byte: u8) -> io::Result<()> {
    rt.write_all(&[byte])
}

pub(crate) fn print_number(rt: &impl Print, n: u64) -> io::Result<()> {
    print!(rt; "{n}")
}

// A space and a number.
pub(crate) fn print_next(rt: &impl Print, n: usize) -> io::Result<()> {
    print!(rt; " {n}")
}

pub(crate) fn print_answer(rt: &impl Print, answer: Answer) -> io::Result<()> {
    print_number(rt, u64::from(number_of(answer)))
}

pub(crate) fn print_flag(rt: &impl Print, flag: bool) -> io::Result<()> {
    print_number(rt, u64::from(flag))
}

pub(crate) fn print_hex(rt: &impl Print, bytes: &[u8]) -> io::Result<()> {
    for byte in bytes {
        print!(rt; "{byte:02x}")?;
    }
    Ok(())
}

// A space and bytes.
pub(crate) fn print_next_hex(rt: &impl Print, bytes: &[u8]) -> io::Result<()> {
    print_byte(rt, b' ')?;
    print_hex(rt, bytes)
}
