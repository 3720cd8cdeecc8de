// What an accepted call changes in an action, written where the action lies.
#![tactic(auto)]

ghost use Rattle.std.specs.Prelude.{◌≡◌};
ghost use Rattle.action.specs.Views.{action_at, written_at};
ghost use Rattle.change.specs.Changed.{with_spent, changed_amounts, changed};

use action::ActionView;
use action::fields::mint_length;

// What an accepted call writes into an action: nothing, what is left of a limit, or what is spent in
// a window and the slot that the window began at.
#[derive(Clone, Copy)]
pub enum Change {
    Nothing,
    Remaining(u64),
    Spent(u64, u64),
}

fn write_spent(amounts: &mut [u8], spent: u64, reset: u64)
    ensures { amounts.new ≡ with_spent amounts.old spent reset }
{
    number::write_u64(amounts, 8, spent);
    number::write_u64(amounts, 24, reset);
}

// Writes a change into the amounts of an action; every other byte stays.
fn write_change(amounts: &mut [u8], change: Change)
    ensures { amounts.new ≡ changed_amounts change amounts.old }
{
    match change {
        Change::Nothing => {}
        Change::Remaining(remaining) => {
            number::write_u64(amounts, 0, remaining);
        }
        Change::Spent(spent, reset) => write_spent(amounts, spent, reset),
    }
}

// Writes a change into an action's data where it lies in a region.
pub fn apply_change(region: &mut [u8], view: ActionView, change: Change)
    ensures { region.new ≡ written_at region.old view (changed change (action_at region.old view)) }
{
    let at = view.at;
    let len = view.len;
    if region.len() < len {
        return;
    }
    if region.len() - len < at {
        return;
    }
    let skip = mint_length(view.kind);
    if len < skip {
        return;
    }
    write_change(&mut region[at + skip..at + len], change);
}
