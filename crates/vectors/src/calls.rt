// The judged call.
use crate::text;
use frame::{Front, REGION_LENGTH_SIZE};
use std::io;

// A replay's input of one call: the number and the region afterwards. Says whether it is one. The
// room, in which the region is judged, holds the longest that two bytes can announce.
pub(crate) fn judge(rt: &impl Print, payload: &[u8]) -> io::Result<bool> {
    let Some((opening, bytes)) = payload.split_at_checked(frame::opening_size(payload)) else {
        return Ok(false);
    };
    let Front::Whole(call) = frame::read_call(bytes) else {
        return Ok(false);
    };
    let stored = &opening[REGION_LENGTH_SIZE..];
    let mut room = [0u8; 65535];
    let Some(region) = room.get_mut(..stored.len()) else {
        return Ok(false);
    };
    region.copy_from_slice(stored);
    text::print_answer(rt, framed::judge_call(region, bytes, call))?;
    text::print_next_hex(rt, region)?;
    Ok(true)
}
