// Answers recorded cases. Standard input is a row of cases: kind (1 byte), payload length (4 bytes,
// the lowest first) and payload; each gets one line. A case that is cut short, or whose payload is
// too long, ends the run.
#![tactic(auto)]

mod accounts;
mod actions;
mod calls;
mod instructions;
mod key_cases;
mod numbers;
mod text;

use std::io;
use std::io::Read;

const HEAD_LENGTH: usize = 5;

// Prints a case's line without its end, and says whether there is such a kind and the payload is long
// enough for it. The kinds are those of the recorded cases, each once and beside what it runs.
fn print_case(rt: &impl Print, kind: u8, payload: &mut [u8]) -> io::Result<bool> {
    match kind {
        1 => numbers::read(rt, payload),
        2 => numbers::write(rt, payload),
        3 => numbers::of_pair(rt, payload, number::capped_sum),
        4 => numbers::of_pair(rt, payload, number::floored_difference),
        5 => key_cases::same(rt, payload),
        6 => key_cases::list(rt, payload),
        10 => actions::create(rt, payload),
        20 => instructions::read(rt, payload),
        21 => instructions::write(rt, payload),
        30 => accounts::resolve(rt, payload),
        31 => accounts::lookup(rt, payload),
        40 => calls::judge(rt, payload),
        _ => Ok(false),
    }
}

fn print_line(rt: &impl Print, kind: u8, payload: &mut [u8]) -> io::Result<()> {
    if !print_case(rt, kind, payload)? {
        text::print_byte(rt, b'?')?;
    }
    text::print_byte(rt, b'\n')
}

// The next case: its kind, and its payload in the room. None where the input ends or is cut short, or
// the payload is longer than the room.
fn next_case<'a>(input: &mut impl Read, room: &'a mut [u8]) -> Option<(u8, &'a mut [u8])> {
    let mut head = [0u8; HEAD_LENGTH];
    input.read_exact(&mut head).ok()?;
    let payload = room.get_mut(..number::read_u32(&head, 1) as usize)?;
    input.read_exact(payload).ok()?;
    Some((head[0], payload))
}

// A proved loop has to end, so it counts its turns, up to a number that no run uses up.
fn answer_all(rt: &impl Print, input: &mut impl Read, room: &mut [u8]) -> io::Result<()> {
    for _ in 0..u64::MAX {
        let Some((kind, payload)) = next_case(input, room) else {
            break;
        };
        print_line(rt, kind, payload)?;
    }
    Ok(())
}

fn main(rt: HostRuntime) -> io::Result<()> {
    let mut room = [0u8; 200000];
    answer_all(&rt, &mut rt.stdin(), &mut room)
}
