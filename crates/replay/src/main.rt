// Replays a session: standard input is a region and calls on it, and each gets a line as soon as its
// bytes are there. Memory is fixed, whatever the input's length.
#![tactic(auto)]

ghost use Rattle.std.specs.Prelude.{◌≤◌, length};

use answer::number_of;
use run::{Fed, MAX_CALL, MAX_OPENING, Said, State};
use std::io;
use std::io::Read;
use std::ops::Range;

// That more is needed is no line.
fn print_said(rt: &impl Print, said: Said) -> io::Result<()> {
    match said {
        Said::More => Ok(()),
        Said::Region(answer) => println!(rt; "region {}", number_of(answer)),
        Said::Call(calls, answer) => println!(rt; "call {calls} {}", number_of(answer)),
        Said::Cut => println!(rt; "cut"),
        Said::End(accepted) => println!(rt; "end {accepted}"),
    }
}

// What is left of a piece, or where more is needed what one read gives: a piece that ends at 0 where
// the input ended or the read failed.
fn left_or_read(
    input: &mut impl Read,
    left: Range<usize>,
    said: Said,
    piece: &mut [u8],
) -> Range<usize>
    requires in_order { left.start ≤ left.end }
    requires in_bounds { left.end ≤ length piece.old }
    ensures still_in_order { result.start ≤ result.end }
    ensures still_in_bounds { result.end ≤ length piece.new }
{
    match said {
        Said::More => 0..input.read(piece).unwrap_or(0),
        _ => left,
    }
}

// Feeds what is left of a piece, or the end of the input.
fn go_on(
    state: State,
    ended: bool,
    opening: &mut [u8; MAX_OPENING],
    frame: &mut [u8; MAX_CALL],
    left: &[u8],
) -> Fed
    ensures { result.used ≤ length left.now }
{
    if ended {
        return state.end();
    }
    run::feed(state, opening, frame, left)
}

// Reads where more is needed, goes on, and prints what happened, up to the end. A proved loop has to
// end, so it counts its turns: each reads or answers, and no run uses that many up.
fn replay(
    rt: &impl Print,
    input: &mut impl Read,
    opening: &mut [u8; MAX_OPENING],
    frame: &mut [u8; MAX_CALL],
    piece: &mut [u8],
) -> io::Result<()> {
    let mut state = State::new();
    let mut said = Said::More;
    let mut left = 0..0;
    for _ in 0..u64::MAX {
        left = left_or_read(input, left, said, piece);
        let fed = go_on(
            state,
            left.end == 0,
            opening,
            frame,
            &piece[left.start..left.end],
        );
        state = fed.state;
        said = fed.said;
        left.start += fed.used;
        print_said(rt, said)?;
        if let Said::End(_) = said {
            break;
        }
    }
    Ok(())
}

fn main(rt: HostRuntime) -> io::Result<()> {
    let mut opening = [0u8; MAX_OPENING];
    let mut frame = [0u8; MAX_CALL];
    let mut piece = [0u8; 65536];
    replay(&rt, &mut rt.stdin(), &mut opening, &mut frame, &mut piece)
}
