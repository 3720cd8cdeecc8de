// The action region.
use crate::text;
use std::io;

// A region: creation's number.
pub(crate) fn create(rt: &impl Print, payload: &[u8]) -> io::Result<bool> {
    text::print_answer(rt, creation::validate_actions_buffer(payload))?;
    Ok(true)
}
