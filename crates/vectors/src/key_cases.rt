// Keys: comparing two, and a list of them.
use crate::text;
use key::KEY_LENGTH;
use keys::Keys;
use std::io;

const LENGTH_SIZE: usize = 4;

// The first's length (4), the first, and the second: whether both are keys and the same.
pub(crate) fn same(rt: &impl Print, payload: &[u8]) -> io::Result<bool> {
    let Some((len, both)) = payload.split_at_checked(LENGTH_SIZE) else {
        return Ok(false);
    };
    let halves = both.split_at_checked(number::read_u32(len, 0) as usize);
    text::print_flag(
        rt,
        halves.is_some_and(|(first, second)| key::same_key(first, second)),
    )?;
    Ok(true)
}

// The list of a row of keys.
fn filled(row: &[u8]) -> Keys {
    let mut keys = Keys::none();
    for key in row.chunks_exact(KEY_LENGTH) {
        keys.push(key);
    }
    keys
}

// A row of keys, the list of all but the last, and the last: how many keys the list has, and whether
// it holds the last. A dash where the payload is no row.
pub(crate) fn list(rt: &impl Print, payload: &[u8]) -> io::Result<bool> {
    let len = payload.len();
    if len < KEY_LENGTH || len % KEY_LENGTH != 0 {
        text::print_byte(rt, b'-')?;
        return Ok(true);
    }
    let (row, sought) = payload.split_at(len - KEY_LENGTH);
    let keys = filled(row);
    text::print_number(rt, keys.count as u64)?;
    text::print_byte(rt, b' ')?;
    text::print_flag(rt, keys.holds(sought))?;
    Ok(true)
}
