// The action region: reading headers, and cutting it into the views of its actions. Any bytes get an answer.
#![tactic(auto)]

ghost use Rattle.std.specs.Prelude.{◌≡◌, [], OnOk};
ghost use Rattle.std.specs.Result.{result_unwrap_or};
ghost use Rattle.answer.specs.Numbers.{answer_of};
ghost use Rattle.answer.specs.Refusable.{Ok};
ghost use Rattle.region.specs.Region.{cut, most_actions};
ghost use Rattle.region.specs.Views.{header_at, views_of};

use action::{ActionView, expected_data_size};
use answer::{Answer, Refusal};
use arrayvec::ArrayVec;

pub const ACTION_HEADER_SIZE: usize = 11;

pub const MAX_ACTIONS: usize = 16;

// The view of the action whose header starts at `at`; refused where the header is short, the type
// unknown or the data past the end.
fn read_header(region: &[u8], at: usize) -> Result<ActionView, Refusal>
    ensures { result ≡ header_at region.now at }
{
    if region.len() < at {
        return Err(Refusal::ActionBufferInvalid);
    }
    let left = region.len() - at;
    if left < ACTION_HEADER_SIZE {
        return Err(Refusal::ActionBufferInvalid);
    }
    let kind = region[at];
    if expected_data_size(kind) == 0 {
        return Err(Refusal::ActionBufferInvalid);
    }
    let len = number::read_u16(region, at + 1) as usize;
    if left - ACTION_HEADER_SIZE < len {
        return Err(Refusal::ActionBufferInvalid);
    }
    Ok(ActionView {
        kind,
        expires: number::read_u64(region, at + 3),
        at: at + ACTION_HEADER_SIZE,
        len,
    })
}

// Reads the views of a region's actions into a list that has none, as far as they are sound.
fn read_actions(region: &[u8], views: &mut ArrayVec<ActionView, MAX_ACTIONS>) -> Answer
    requires { views.old.items ≡ [] }
    ensures answer { result ≡ answer_of (views_of (cut most_actions region.now)) }
    ensures all { OnOk result (views_of (cut most_actions region.now) ≡ Ok views.new) }
{
    let mut at = 0;
    // The place moves by what the header states, so no `for` counts it.
    while at < region.len() {
        if views.is_full() {
            return Err(Refusal::ActionBufferInvalid);
        }
        let view = read_header(region, at)?;
        at = view.at + view.len;
        views.push(view);
    }
    Ok(())
}

// Cuts a region into the views of its actions, in order, which are all that a list has afterwards; none on a
// refusal. Lent, since a list that is answered by value is copied twice on its way out.
pub fn cut_into(region: &[u8], views: &mut ArrayVec<ActionView, MAX_ACTIONS>) -> Answer
    ensures answer { result ≡ answer_of (views_of (cut most_actions region.now)) }
    ensures views_after { views.new ≡ result_unwrap_or (views_of (cut most_actions region.now)) (record { items = [] }) }
{
    views.clear();
    let answer = read_actions(region, views);
    if answer.is_err() {
        views.clear();
    }
    answer
}

// The views of a region's actions, in order.
pub fn parse_actions(region: &[u8]) -> Result<ArrayVec<ActionView, MAX_ACTIONS>, Refusal>
    ensures { result ≡ views_of (cut most_actions region.now) }
{
    let mut views = ArrayVec::new();
    cut_into(region, &mut views)?;
    Ok(views)
}
