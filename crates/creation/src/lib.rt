// What creation asks of a region's actions, and the stored form, over the actions' views.
#![tactic(auto)]

ghost use Rattle.std.specs.Prelude.{◌≡◌, ◌&&◌, eqb};
ghost use Rattle.key.specs.Key.{same_key};
ghost use Rattle.action.specs.Fields.{is_token, key_of};
ghost use Rattle.action.specs.Views.{action_at};
ghost use Rattle.row.specs.Views.{actions_in, kinds_in};
ghost use Rattle.creation.specs.Creation.{keeps as keeps_rule, all_keep, how_often, both_lists, sol_repeats, mint_again, mint_repeats, form_of, creation};
ghost use Rattle.creation.specs.Views.{stored_answer};

use action::fields::{
    amounts_of, data_of, is_recurring, is_token, key_of, last_reset, spent, window,
};
use action::{
    ActionView, PROGRAM_BLACKLIST, PROGRAM_WHITELIST, SOL_LIMIT, SOL_MAX_PER_TX,
    SOL_RECURRING_LIMIT, expected_data_size,
};
use answer::{Answer, Refusal};
use arrayvec::ArrayVec;
use region::cut_into;

// What each action has to keep by itself. An enum and no closure: the definitions `keeps` and `form_of`
// take it.
#[derive(Clone, Copy)]
pub enum Rule {
    Length,
    Fresh,
    Windowed,
}

fn keeps_length(region: &[u8], view: ActionView) -> bool
    ensures { result ≡ keeps_rule Rule.Length (action_at region.now view) }
{
    let payload = data_of(region, view);
    payload.len() == expected_data_size(view.kind)
}

fn keeps_fresh(region: &[u8], view: ActionView) -> bool
    ensures { result ≡ keeps_rule Rule.Fresh (action_at region.now view) }
{
    if !is_recurring(view.kind) {
        return true;
    }
    let amounts = amounts_of(region, view);
    spent(amounts) == 0 && window(amounts) != 0 && last_reset(amounts) == 0
}

fn keeps_window(region: &[u8], view: ActionView) -> bool
    ensures { result ≡ keeps_rule Rule.Windowed (action_at region.now view) }
{
    !is_recurring(view.kind) || 0 < window(amounts_of(region, view))
}

fn keeps(region: &[u8], view: ActionView, rule: Rule) -> bool
    ensures { result ≡ keeps_rule rule (action_at region.now view) }
{
    match rule {
        Rule::Length => keeps_length(region, view),
        Rule::Fresh => keeps_fresh(region, view),
        Rule::Windowed => keeps_window(region, view),
    }
}

fn all_keep(region: &[u8], views: &[ActionView], rule: Rule) -> bool
    ensures { result ≡ all_keep rule (actions_in region.now views.now) }
{
    views.iter().all(|view| keeps(region, *view, rule))
}

pub fn how_often(views: &[ActionView], kind: u8) -> usize
    ensures { result ≡ how_often kind (kinds_in views.now) }
{
    views.iter().filter(|view| view.kind == kind).count()
}

fn both_lists(views: &[ActionView]) -> bool
    ensures { result ≡ both_lists (kinds_in views.now) }
{
    how_often(views, PROGRAM_WHITELIST) > 0 && how_often(views, PROGRAM_BLACKLIST) > 0
}

fn sol_repeats(views: &[ActionView]) -> bool
    ensures { result ≡ sol_repeats (kinds_in views.now) }
{
    how_often(views, SOL_LIMIT) > 1
        || how_often(views, SOL_RECURRING_LIMIT) > 1
        || how_often(views, SOL_MAX_PER_TX) > 1
}

fn same_mint(region: &[u8], other: ActionView, view: ActionView) -> bool
    ensures { result ≡ (eqb other.kind view.kind && same_key (key_of (action_at region.now other)) (key_of (action_at region.now view))) }
{
    other.kind == view.kind && key::same_key(key_of(region, other), key_of(region, view))
}

// Whether one of some actions has the type and the mint of `view`.
fn mint_again(region: &[u8], views: &[ActionView], view: ActionView) -> bool
    ensures { result ≡ mint_again (action_at region.now view) (actions_in region.now views.now) }
{
    views.iter().any(|other| same_mint(region, *other, view))
}

fn mint_repeats_at(region: &[u8], others: &[ActionView], view: ActionView) -> bool
    ensures { result ≡ (is_token view.kind && mint_again (action_at region.now view) (actions_in region.now others.now)) }
{
    is_token(view.kind) && mint_again(region, others, view)
}

fn mint_repeats(region: &[u8], views: &[ActionView]) -> bool
    ensures { result ≡ mint_repeats (actions_in region.now views.now) }
{
    // Each action against those after it, which a `for` would not hand out.
    let mut left = views;
    while let Some((view, others)) = left.split_first() {
        if mint_repeats_at(region, others, *view) {
            return true;
        }
        left = others;
    }
    false
}

// The first breach of a rule on the actions, each with its refusal.
fn form(
    region: &[u8],
    views: &[ActionView],
    breach: Refusal,
    conflict: Refusal,
    ending: Rule,
) -> Answer
    ensures { result ≡ form_of breach conflict ending (actions_in region.now views.now) }
{
    if !all_keep(region, views, Rule::Length) {
        return Err(breach);
    }
    if both_lists(views) {
        return Err(conflict);
    }
    if sol_repeats(views) {
        return Err(breach);
    }
    if mint_repeats(region, views) {
        return Err(breach);
    }
    if !all_keep(region, views, ending) {
        return Err(breach);
    }
    Ok(())
}

// What creation answers to a region.
pub fn validate_actions_buffer(region: &[u8]) -> Answer
    ensures { result ≡ creation region.now }
{
    let mut views = ArrayVec::new();
    cut_into(region, &mut views)?;
    form(
        region,
        views.as_slice(),
        Refusal::ActionBufferInvalid,
        Refusal::ActionWhitelistBlacklistConflict,
        Rule::Fresh,
    )
}

// What a judged call answers to the actions of a region: any breach of the stored form, cutting included, is the
// one refusal.
pub fn stored_answer(region: &[u8], cut: Answer, views: &[ActionView]) -> Answer
    ensures { result ≡ stored_answer cut (actions_in region.now views.now) }
{
    let Ok(()) = cut else {
        return Err(Refusal::BadRegion);
    };
    form(
        region,
        views,
        Refusal::BadRegion,
        Refusal::BadRegion,
        Rule::Windowed,
    )
}
