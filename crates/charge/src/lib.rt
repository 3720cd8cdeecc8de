// Charges, actions with an amount each, as far as there are amounts: what the rules of a class answer to
// them, and settling them where they lie.
#![tactic(auto)]

ghost use Rattle.std.specs.Prelude.{◌≡◌, cond};
ghost use Rattle.answer.specs.Refusable.{Ok};
ghost use Rattle.action.specs.Views.{action_at};
ghost use Rattle.limit.specs.Limit.{rule_answer};
ghost use Rattle.charge.specs.Classes.{is_sol, of_class, class_answer};
ghost use Rattle.charge.specs.Views.{charges_at, settled_at};

use action::fields::is_token;
use action::{ActionView, SOL_LIMIT, SOL_MAX_PER_TX, SOL_RECURRING_LIMIT};
use answer::Answer;
use change::apply_change;
use limit::{change_of, rule_answer};

// The two classes of rules. An enum and no closure: the definition `class_answer` takes it.
#[derive(Clone, Copy)]
pub enum Class {
    Sol,
    Tokens,
}

#[tactic(auto, unfolding(crate::specs::Classes::is_sol))]
fn is_sol(kind: u8) -> bool
    ensures { result ≡ is_sol kind }
{
    matches!(kind, SOL_LIMIT | SOL_RECURRING_LIMIT | SOL_MAX_PER_TX)
}

fn of_class(class: Class, kind: u8) -> bool
    ensures { result ≡ of_class class kind }
{
    match class {
        Class::Sol => is_sol(kind),
        Class::Tokens => is_token(kind),
    }
}

fn class_rule(region: &[u8], view: ActionView, class: Class, slot: u64, amount: u64) -> Answer
    ensures { result ≡ cond (of_class class view.kind) (rule_answer slot (record { act = action_at region.now view; amount = amount })) (Ok tt) }
{
    if of_class(class, view.kind) {
        return rule_answer(region, view, slot, amount);
    }
    Ok(())
}

// What the rules of one class answer, in region order and as far as there are amounts.
pub fn class_answer(
    region: &[u8],
    views: &[ActionView],
    amounts: &[u64],
    class: Class,
    slot: u64,
) -> Answer
    ensures { result ≡ class_answer class slot (charges_at region.now views.now amounts.now) }
{
    for (view, amount) in views.iter().zip(amounts) {
        class_rule(region, *view, class, slot, *amount)?;
    }
    Ok(())
}

// Writes what an accepted call changes, action by action as far as there are amounts; no other byte
// changes.
pub fn settle(region: &mut [u8], views: &[ActionView], amounts: &[u64], slot: u64)
    ensures { region.new ≡ settled_at slot views.now amounts.now region.old }
{
    for (view, amount) in views.iter().zip(amounts) {
        let change = change_of(region, *view, slot, *amount);
        apply_change(region, *view, change);
    }
}
