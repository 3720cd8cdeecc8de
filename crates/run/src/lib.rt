// A replay, run as its input comes: a region and calls on it, fed in pieces of any length. Each time it
// says what happened. The memory is lent and fixed, whatever the input's length: one part holds the
// opening, in which the region is judged where it lies, the other the call that is coming.
#![tactic(auto)]

ghost use Rattle.std.specs.Prelude.{◌+◌, ◌-◌, ◌≤◌, min, ◌≡◌, length, take};
ghost use Rattle.std.proofs.Math.Seq.{paste};
ghost use Rattle.run.specs.declared.Stage.TheVariants.{Opening, Calls};
ghost use Rattle.run.specs.Views.{begun, waits, stopped, opened, call_said, hears, marked, wanted_of, most_of, taken_of, memory_fed, fed_opening, fed_call, opening_called, fed, opening_fed, frame_fed};

use answer::Answer;
use frame::REGION_LENGTH_SIZE;
use framed::Heard;

// The most bytes that an opening has, and that a call has.
pub const MAX_OPENING: usize = 65537;

pub const MAX_CALL: usize = 60076;

// What is coming: the opening, a call, or nothing any more. An enum and no closure: a run is handed on as a
// value.
#[derive(Clone, Copy)]
pub enum Stage {
    Opening,
    Calls,
    Over,
}

// Where a run stands: how much is there of what is coming, how long the region is, and how many calls
// were answered and accepted.
#[derive(Clone, Copy)]
pub struct State {
    stage: Stage,
    got: usize,
    region: usize,
    calls: u64,
    accepted: u64,
}

// What happened: more is needed, the region was answered, a call was answered (which one, counted from
// one), the input is cut, or the run ended with so many calls accepted.
#[derive(Clone, Copy)]
pub enum Said {
    More,
    Region(Answer),
    Call(u64, Answer),
    Cut,
    End(u64),
}

// How many bytes of a piece were used, the run afterwards, and what happened. The rest of the piece is
// to be fed again; where more is needed there is none.
#[derive(Clone, Copy)]
pub struct Fed {
    pub used: usize,
    pub state: State,
    pub said: Said,
}

impl State {
    // A run of which nothing came yet.
    pub fn new() -> Self
        ensures { result ≡ begun }
    {
        State {
            stage: Stage::Opening,
            got: 0,
            region: 0,
            calls: 0,
            accepted: 0,
        }
    }

    fn waits(self, used: usize, got: usize) -> Fed
        ensures { result ≡ waits self used got }
    {
        let state = State { got, ..self };
        Fed {
            used,
            state,
            said: Said::More,
        }
    }

    fn stopped(self, used: usize, said: Said) -> Fed
        ensures { result ≡ stopped self used said }
    {
        let state = State {
            stage: Stage::Over,
            got: 0,
            ..self
        };
        Fed { used, state, said }
    }

    fn opened(self, used: usize, region: usize, answer: Answer) -> Fed
        ensures { result ≡ opened self used region answer }
    {
        let said = Said::Region(answer);
        if answer.is_err() {
            return self.stopped(used, said);
        }
        let state = State {
            stage: Stage::Calls,
            got: 0,
            region,
            ..self
        };
        Fed { used, state, said }
    }

    fn called(self, used: usize, answer: Answer) -> Fed
        ensures { result ≡ call_said self used answer }
    {
        let calls = number::capped_sum(self.calls, 1);
        let accepted = number::capped_sum(self.accepted, u64::from(answer.is_ok()));
        let state = State {
            stage: Stage::Calls,
            got: 0,
            calls,
            accepted,
            ..self
        };
        Fed {
            used,
            state,
            said: Said::Call(calls, answer),
        }
    }

    // With what the bytes at hand came to, so many now.
    fn hears(self, used: usize, there: usize, heard: Heard) -> Fed
        ensures { result ≡ hears self used there heard }
    {
        match heard {
            Heard::Waiting => self.waits(used, there),
            Heard::TooLong => self.stopped(used, Said::Cut),
            Heard::Opened(region, answer) => self.opened(used, region, answer),
            Heard::Judged(answer) => self.called(used, answer),
        }
    }

    // The input ended: inside something that was coming it is cut, between calls the run ends. One that
    // is over ends again.
    pub fn end(self) -> Fed
        ensures { result ≡ marked self }
    {
        match self.stage {
            Stage::Opening => self.stopped(0, Said::Cut),
            Stage::Calls if self.got > 0 => self.stopped(0, Said::Cut),
            Stage::Calls | Stage::Over => self.stopped(0, Said::End(self.accepted)),
        }
    }
}

// How many bytes what is coming has, as far as those at hand tell.
fn wanted(stage: Stage, bytes: &[u8]) -> usize
    ensures value { result ≡ wanted_of stage bytes.now }
    ensures upper_bound { result ≤ most_of stage }
{
    match stage {
        Stage::Opening => frame::opening_size(bytes),
        Stage::Calls => frame::call_size(bytes),
        Stage::Over => 0,
    }
}

// Copies bytes of a piece behind those at hand, up to a size, and says how many.
fn fill(memory: &mut [u8], got: usize, size: usize, piece: &[u8]) -> usize
    requires got_in_bounds { got ≤ length memory.old }
    requires size_in_bounds { size ≤ length memory.old }
    ensures value { result ≡ min (size - got) (length piece.now) }
    ensures memory_after { memory.new ≡ paste memory.old got piece.now result }
{
    let count = size.saturating_sub(got).min(piece.len());
    memory[got..got + count].copy_from_slice(&piece[..count]);
    count
}

// Takes bytes of a piece to those at hand: up to the end of the head, which tells the size, and then
// up to that size. Says how many.
fn gather(stage: Stage, memory: &mut [u8], got: usize, piece: &[u8]) -> usize
    requires got_in_bounds { got ≤ length memory.old }
    requires room { most_of stage ≤ length memory.old }
    ensures result_in_bounds { got + result ≤ length memory.old }
    ensures value { result ≡ taken_of stage (take got memory.old) piece.now }
    ensures memory_after { memory.new ≡ paste memory.old got piece.now result }
{
    let head = wanted(stage, &memory[..got]);
    let first = fill(memory, got, head, piece);
    let there = got + first;
    let size = wanted(stage, &memory[..there]);
    first + fill(memory, there, size, &piece[first..])
}

// Slices below `feed`, and what they have room for: lent on as arrays they were tried, and the proofs of what
// is at hand, which go by a slice's length, did not close.
fn feed_opening(state: State, opening: &mut [u8], piece: &[u8]) -> Fed
    requires { most_of Opening ≤ length opening.old }
    ensures value { result ≡ fed_opening state opening.old piece.now }
    ensures opening_after { opening.new ≡ memory_fed Opening state.got opening.old piece.now }
{
    let got = state.got.min(opening.len());
    let used = gather(Stage::Opening, opening, got, piece);
    let there = got + used;
    let heard = framed::hear_opening(&opening[..there]);
    state.hears(used, there, heard)
}

fn feed_call(state: State, opening: &mut [u8], frame: &mut [u8], piece: &[u8]) -> Fed
    requires opening_room { most_of Opening ≤ length opening.old }
    requires frame_room { most_of Calls ≤ length frame.old }
    ensures value { result ≡ fed_call state opening.old frame.old piece.now }
    ensures opening_after { opening.new ≡ opening_called state opening.old frame.old piece.now }
    ensures frame_after { frame.new ≡ memory_fed Calls state.got frame.old piece.now }
{
    let got = state.got.min(frame.len());
    let used = gather(Stage::Calls, frame, got, piece);
    let there = got + used;
    let end = REGION_LENGTH_SIZE + state.region.min(opening.len() - REGION_LENGTH_SIZE);
    let heard = framed::hear_call(&mut opening[REGION_LENGTH_SIZE..end], &frame[..there]);
    state.hears(used, there, heard)
}

// Feeds a piece of the input, of any length: the bytes that come next.
pub fn feed(
    state: State,
    opening: &mut [u8; MAX_OPENING],
    frame: &mut [u8; MAX_CALL],
    piece: &[u8],
) -> Fed
    ensures value { result ≡ fed state opening.old frame.old piece.now }
    ensures opening_after { opening.new ≡ opening_fed state opening.old frame.old piece.now }
    ensures frame_after { frame.new ≡ frame_fed state frame.old piece.now }
{
    match state.stage {
        Stage::Opening => feed_opening(state, opening, piece),
        Stage::Calls => feed_call(state, opening, frame, piece),
        Stage::Over => state.stopped(0, Said::End(state.accepted)),
    }
}
