// Numbers: reading and writing eight bytes, the capped sum and the floored difference. Each kind says
// whether its payload is long enough, and prints nothing where it is not.
use crate::text;
use std::io;

const NUMBER_LENGTH: usize = 8;

const PAIR_LENGTH: usize = 16;

// Place (8) and bytes: the number at the place.
pub(crate) fn read(rt: &impl Print, payload: &[u8]) -> io::Result<bool> {
    let Some((place, bytes)) = payload.split_at_checked(NUMBER_LENGTH) else {
        return Ok(false);
    };
    let place = number::read_u64(place, 0) as usize;
    text::print_number(rt, number::read_u64(bytes, place))?;
    Ok(true)
}

// Place (8), value (8) and bytes: whether they were written, and the bytes afterwards.
pub(crate) fn write(rt: &impl Print, payload: &mut [u8]) -> io::Result<bool> {
    let Some((head, bytes)) = payload.split_at_mut_checked(PAIR_LENGTH) else {
        return Ok(false);
    };
    let place = number::read_u64(head, 0) as usize;
    let value = number::read_u64(head, NUMBER_LENGTH);
    text::print_flag(rt, number::write_u64(bytes, place, value))?;
    text::print_next_hex(rt, bytes)?;
    Ok(true)
}

// Two numbers (8 each): what is made of them.
pub(crate) fn of_pair<F: Fn(u64, u64) -> u64>(
    rt: &impl Print,
    payload: &[u8],
    made: F,
) -> io::Result<bool>
    requires { F.IsAlwaysCallable made }
{
    if payload.len() < PAIR_LENGTH {
        return Ok(false);
    }
    let a = number::read_u64(payload, 0);
    let b = number::read_u64(payload, NUMBER_LENGTH);
    text::print_number(rt, made(a, b))?;
    Ok(true)
}
