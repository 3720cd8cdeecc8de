// The fields of an action's data, each read from a part that starts at its data.
ghost use Rattle.std.specs.Prelude.{◌≡◌};
ghost use Rattle.action.specs.Action.{expired};
ghost use Rattle.action.specs.Views.{action_at, data_at};
ghost use Rattle.action.specs.Fields.{is_token, is_recurring, key_of, mint_length, amounts_of};
ghost use Rattle.action.specs.Fields.{remaining as remaining_of, limit as limit_of, spent as spent_of, window as window_of, last_reset};

use crate::{
    ActionView, SOL_RECURRING_LIMIT, TOKEN_LIMIT, TOKEN_MAX_PER_TX, TOKEN_RECURRING_LIMIT,
};
use key::KEY_LENGTH;

// The tests of a type are no one function: each is a definition's, as `is_sol` of `charge` and `is_limit` of
// `limit` are.
#[tactic(auto, unfolding(crate::specs::Fields::is_token))]
pub fn is_token(kind: u8) -> bool
    ensures { result ≡ is_token kind }
{
    matches!(kind, TOKEN_LIMIT | TOKEN_RECURRING_LIMIT | TOKEN_MAX_PER_TX)
}

#[tactic(auto, unfolding(crate::specs::Fields::is_recurring))]
pub fn is_recurring(kind: u8) -> bool
    ensures { result ≡ is_recurring kind }
{
    matches!(kind, SOL_RECURRING_LIMIT | TOKEN_RECURRING_LIMIT)
}

// Whether the slot is past an expiry that is set.
#[tactic(auto, unfolding(crate::specs::Action::expired))]
pub fn is_expired(expires: u64, slot: u64) -> bool
    ensures { result ≡ expired expires slot }
{
    expires != 0 && expires < slot
}

// The part of a region that is an action's data, or the empty part where it passes the end.
pub fn data_of(region: &[u8], view: ActionView) -> &[u8]
    ensures { result.now ≡ data_at region.now view }
{
    part::part_at(region, view.at, view.len)
}

// The mint or program that an action's data begins with.
pub fn key_of(region: &[u8], view: ActionView) -> &[u8]
    ensures { result.now ≡ key_of (action_at region.now view) }
{
    let payload = data_of(region, view);
    if payload.len() < KEY_LENGTH {
        return payload;
    }
    &payload[..KEY_LENGTH]
}

// An action's amounts: its data, after the mint where it has one.
pub fn amounts_of(region: &[u8], view: ActionView) -> &[u8]
    ensures { result.now ≡ amounts_of (action_at region.now view) }
{
    let payload = data_of(region, view);
    let skip = mint_length(view.kind);
    if payload.len() < skip {
        return &payload[..0];
    }
    &payload[skip..]
}

// The bytes of the mint before a type's amounts.
pub fn mint_length(kind: u8) -> usize
    ensures { result ≡ mint_length kind }
{
    if is_token(kind) { KEY_LENGTH } else { 0 }
}

// The first number of some amounts, under the two names that the document has for it.
pub fn remaining(amounts: &[u8]) -> u64
    ensures { result ≡ remaining_of amounts.now }
{
    number::read_u64(amounts, 0)
}

pub fn limit(amounts: &[u8]) -> u64
    ensures { result ≡ limit_of amounts.now }
{
    number::read_u64(amounts, 0)
}

pub fn spent(amounts: &[u8]) -> u64
    ensures { result ≡ spent_of amounts.now }
{
    number::read_u64(amounts, 8)
}

pub fn window(amounts: &[u8]) -> u64
    ensures { result ≡ window_of amounts.now }
{
    number::read_u64(amounts, 16)
}

pub fn last_reset(amounts: &[u8]) -> u64
    ensures { result ≡ last_reset amounts.now }
{
    number::read_u64(amounts, 24)
}
