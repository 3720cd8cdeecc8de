// Compact instructions: reading a list, and writing one.
use crate::text;
use compact::{Entry, Range};
use std::io;

pub(crate) const ENTRY_SIZE: usize = 33;

const LENGTH_SIZE: usize = 4;

// As many entries as a count of one byte can say.
const MAX_ENTRIES: usize = 255;

// What stands in the output before anything is written.
const UNWRITTEN: u8 = 0xee;

fn print_range(rt: &impl Print, range: Range) -> io::Result<()> {
    text::print_next(rt, range.start)?;
    text::print_next(rt, range.len)
}

fn print_entries(rt: &impl Print, entries: &[Entry]) -> io::Result<()> {
    for entry in entries {
        text::print_next(rt, entry.program as usize)?;
        print_range(rt, entry.accounts)?;
        print_range(rt, entry.payload)?;
    }
    Ok(())
}

// Bytes: the number; where they are read also the bytes consumed, the count and each entry.
pub(crate) fn read(rt: &impl Print, payload: &[u8]) -> io::Result<bool> {
    match compact::parse_compact_instructions(payload) {
        Ok(parsed) => {
            text::print_answer(rt, Ok(()))?;
            text::print_next(rt, parsed.consumed)?;
            let entries = parsed.entries.as_slice();
            text::print_next(rt, entries.len())?;
            print_entries(rt, entries)?;
        }
        Err(refusal) => text::print_answer(rt, Err(refusal))?,
    }
    Ok(true)
}

// An entry: program (1), and the start and length (8 each) of its accounts and of its data.
pub(crate) fn entry_of(field: &[u8]) -> Entry {
    Entry {
        program: field.first().copied().unwrap_or(0),
        accounts: Range {
            start: number::read_u64(field, 1) as usize,
            len: number::read_u64(field, 9) as usize,
        },
        payload: Range {
            start: number::read_u64(field, 17) as usize,
            len: number::read_u64(field, 25) as usize,
        },
    }
}

// The entries of a row, as far as a count can say them.
fn entries_of(row: &[u8]) -> [Entry; MAX_ENTRIES] {
    let mut entries = [Entry::default(); MAX_ENTRIES];
    for (entry, field) in entries.iter_mut().zip(row.chunks_exact(ENTRY_SIZE)) {
        *entry = entry_of(field);
    }
    entries
}

// Writes a list to an output and prints the number, the bytes written and the output.
fn write_to(rt: &impl Print, room: &mut [u8], entries: &[Entry], source: &[u8]) -> io::Result<()> {
    room.fill(UNWRITTEN);
    let written = encoding::serialize_compact_instructions(entries, source, room);
    text::print_answer(rt, written.map(|_| ()))?;
    text::print_next(rt, written.unwrap_or(0))?;
    text::print_next_hex(rt, room)
}

// A count (1), as many entries, the output's length (4) and the source. Says whether they are there,
// and the output no longer than the room.
pub(crate) fn write(rt: &impl Print, payload: &[u8]) -> io::Result<bool> {
    let Some((count, rest)) = payload.split_first() else {
        return Ok(false);
    };
    let count = *count as usize;
    let Some((row, rest)) = rest.split_at_checked(count * ENTRY_SIZE) else {
        return Ok(false);
    };
    let Some((len, source)) = rest.split_at_checked(LENGTH_SIZE) else {
        return Ok(false);
    };
    let mut room = [0u8; 200000];
    let Some(output) = room.get_mut(..number::read_u32(len, 0) as usize) else {
        return Ok(false);
    };
    write_to(rt, output, &entries_of(row)[..count], source)?;
    Ok(true)
}
