// The account table: resolving an entry, and looking a key up. Each kind says whether its payload is
// long enough, and prints nothing where it is not.
use crate::instructions::{ENTRY_SIZE, entry_of};
use crate::text;
use std::io;

const LENGTH_SIZE: usize = 4;

const INDEX_SIZE: usize = 8;

// The table's length (4), the table, an entry and its source: resolving's number.
pub(crate) fn resolve(rt: &impl Print, payload: &[u8]) -> io::Result<bool> {
    let Some((len, rest)) = payload.split_at_checked(LENGTH_SIZE) else {
        return Ok(false);
    };
    let Some((table, rest)) = rest.split_at_checked(number::read_u32(len, 0) as usize) else {
        return Ok(false);
    };
    let Some((entry, source)) = rest.split_at_checked(ENTRY_SIZE) else {
        return Ok(false);
    };
    text::print_answer(rt, lookup::resolve(table, entry_of(entry), source))?;
    Ok(true)
}

// An index (8) and a table: the key there, or an empty line.
pub(crate) fn lookup(rt: &impl Print, payload: &[u8]) -> io::Result<bool> {
    let Some((index, table)) = payload.split_at_checked(INDEX_SIZE) else {
        return Ok(false);
    };
    let index = number::read_u64(index, 0) as usize;
    text::print_hex(rt, lookup::lookup(table, index))?;
    Ok(true)
}
