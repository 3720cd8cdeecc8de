// What lies at the front of the replay's input, answered: the opening's region, and a call.
#![tactic(auto)]

ghost use Rattle.std.specs.Prelude.{◌≡◌};
ghost use Rattle.judge.specs.Judge.{judged, region_after};
ghost use Rattle.framed.specs.Framed.{call_in};
ghost use Rattle.framed.specs.Views.{opening_heard, call_heard, region_heard};

use answer::Answer;
use frame::{CallView, Front, REGION_LENGTH_SIZE};
use judge::Call;

// What some bytes come to: more of them are needed, a call is too long, a region of some length was
// answered, or a call was.
#[derive(Clone, Copy)]
pub enum Heard {
    Waiting,
    TooLong,
    Opened(usize, Answer),
    Judged(Answer),
}

// Judges the call whose parts lie in some bytes; only an accepted one writes the region.
pub fn judge_call(region: &mut [u8], bytes: &[u8], call: CallView) -> Answer
    ensures value { result ≡ judged region.old (call_in bytes.now call) }
    ensures region_after { region.new ≡ region_after region.old (call_in bytes.now call) }
{
    judge::judge(
        region,
        Call {
            before: call.before.of(bytes),
            after: call.after.of(bytes),
            instructions: call.instructions.of(bytes),
            vault: call.vault.of(bytes),
            slot: call.slot,
            lamports_before: call.lamports_before,
            lamports_after: call.lamports_after,
            gross: call.gross,
        },
    )
}

// Hears the bytes of an opening.
pub fn hear_opening(bytes: &[u8]) -> Heard
    ensures { result ≡ opening_heard bytes.now }
{
    let size = frame::opening_size(bytes);
    if bytes.len() < size {
        return Heard::Waiting;
    }
    let region = &bytes[REGION_LENGTH_SIZE..size];
    Heard::Opened(region.len(), creation::validate_actions_buffer(region))
}

// Hears the bytes of a call; a whole one is judged on the region.
pub fn hear_call(region: &mut [u8], bytes: &[u8]) -> Heard
    ensures value { result ≡ call_heard region.old bytes.now }
    ensures region_after { region.new ≡ region_heard region.old bytes.now }
{
    match frame::read_call(bytes) {
        Front::Whole(call) => Heard::Judged(judge_call(region, bytes, call)),
        Front::Long => Heard::TooLong,
        Front::Short => Heard::Waiting,
    }
}
