// The rule of one limit, for SOL and tokens alike, and what is written when it is kept. It reads an
// action's amounts from the part of the region that they lie in.
#![tactic(auto)]

ghost use Rattle.std.specs.Prelude.{◌≡◌, ◌*◌, ◌/◌};
ghost use Rattle.action.specs.Views.{action_at};
ghost use Rattle.limit.specs.Limit.{refusal_of, window_over, base, above as is_above, breaks as does_break, rule_answer, spent_change, is_limit, live_change, change_of};

use action::fields::{
    amounts_of, is_expired, is_recurring, last_reset, limit, remaining, spent, window,
};
use action::{
    ActionView, SOL_LIMIT, SOL_MAX_PER_TX, SOL_RECURRING_LIMIT, TOKEN_LIMIT, TOKEN_MAX_PER_TX,
    TOKEN_RECURRING_LIMIT,
};
use answer::{Answer, Refusal};
use change::Change;
use number::{capped_sum, floored_difference};

// The refusal of a type's rule; a list has none.
#[tactic(auto, unfolding(crate::specs::Limit::refusal_of))]
fn refusal_of(kind: u8) -> Answer
    ensures { result ≡ refusal_of kind }
{
    match kind {
        SOL_LIMIT => Err(Refusal::ActionSolLimitExceeded),
        SOL_RECURRING_LIMIT => Err(Refusal::ActionSolRecurringLimitExceeded),
        SOL_MAX_PER_TX => Err(Refusal::ActionSolMaxPerTxExceeded),
        TOKEN_LIMIT => Err(Refusal::ActionTokenLimitExceeded),
        TOKEN_RECURRING_LIMIT => Err(Refusal::ActionTokenRecurringLimitExceeded),
        TOKEN_MAX_PER_TX => Err(Refusal::ActionTokenMaxPerTxExceeded),
        _ => Ok(()),
    }
}

fn window_over(slot: u64, amounts: &[u8]) -> bool
    ensures { result ≡ window_over slot amounts.now }
{
    window(amounts) < floored_difference(slot, last_reset(amounts))
}

fn base_of(slot: u64, amounts: &[u8]) -> u64
    ensures { result ≡ base slot amounts.now }
{
    if window_over(slot, amounts) {
        0
    } else {
        spent(amounts)
    }
}

fn above(region: &[u8], view: ActionView, slot: u64, amount: u64) -> bool
    ensures { result ≡ is_above slot amount (action_at region.now view) }
{
    let amounts = amounts_of(region, view);
    if is_recurring(view.kind) {
        return limit(amounts) < capped_sum(base_of(slot, amounts), amount);
    }
    remaining(amounts) < amount
}

fn breaks(region: &[u8], view: ActionView, slot: u64, amount: u64) -> bool
    ensures { result ≡ does_break slot amount (action_at region.now view) }
{
    if amount == 0 {
        return false; // a call that takes nothing breaks no rule
    }
    if is_expired(view.expires, slot) {
        return true; // what is expired allows nothing
    }
    above(region, view, slot, amount)
}

// What the rule of one action answers to an amount.
pub fn rule_answer(region: &[u8], view: ActionView, slot: u64, amount: u64) -> Answer
    ensures { result ≡ rule_answer slot (record { act = action_at region.now view; amount = amount }) }
{
    if breaks(region, view, slot, amount) {
        return refusal_of(view.kind);
    }
    Ok(())
}

// The slot that the window which holds `slot` begins at.
fn window_start(slot: u64, window: u64) -> u64
    ensures { result ≡ slot / window * window }
{
    if window == 0 {
        return 0;
    }
    slot / window * window
}

fn spent_change(slot: u64, amount: u64, amounts: &[u8]) -> Change
    ensures { result ≡ spent_change slot amount amounts.now }
{
    if window_over(slot, amounts) {
        return Change::Spent(amount, window_start(slot, window(amounts)));
    }
    Change::Spent(capped_sum(spent(amounts), amount), last_reset(amounts))
}

#[tactic(auto, unfolding(crate::specs::Limit::is_limit))]
fn is_limit(kind: u8) -> bool
    ensures { result ≡ is_limit kind }
{
    matches!(kind, SOL_LIMIT | TOKEN_LIMIT)
}

fn live_change(region: &[u8], view: ActionView, slot: u64, amount: u64) -> Change
    ensures { result ≡ live_change slot amount (action_at region.now view) }
{
    let amounts = amounts_of(region, view);
    if is_recurring(view.kind) {
        return spent_change(slot, amount, amounts);
    }
    if is_limit(view.kind) {
        return Change::Remaining(floored_difference(remaining(amounts), amount));
    }
    Change::Nothing
}

// What an accepted call writes into one action.
pub fn change_of(region: &[u8], view: ActionView, slot: u64, amount: u64) -> Change
    ensures { result ≡ change_of slot (record { act = action_at region.now view; amount = amount }) }
{
    if amount == 0 {
        return Change::Nothing;
    }
    if is_expired(view.expires, slot) {
        return Change::Nothing;
    }
    live_change(region, view, slot, amount)
}
