// Step 5: each instruction's program against the lists.
#![tactic(auto)]

ghost use Rattle.std.specs.Prelude.{◌≡◌, not, ◌&&◌, eqb, ltb};
ghost use Rattle.key.specs.Key.{same_key};
ghost use Rattle.action.specs.Action.{expired, program_whitelist};
ghost use Rattle.action.specs.Fields.{key_of};
ghost use Rattle.action.specs.Views.{action_at};
ghost use Rattle.row.specs.Views.{actions_in, kinds_in};
ghost use Rattle.creation.specs.Creation.{how_often};
ghost use Rattle.account.specs.Views.{table_records};
ghost use Rattle.programs.specs.Programs.{in_live_list, lists_answer, program_answer, programs_answer};

use account::{Table, record_key};
use action::fields::{is_expired, key_of};
use action::{ActionView, PROGRAM_BLACKLIST, PROGRAM_WHITELIST};
use answer::{Answer, Refusal};
use creation::how_often;

// Whether one action is a live entry of a list that has the key.
fn has_key(region: &[u8], view: ActionView, kind: u8, slot: u64, key: &[u8]) -> bool
    ensures { result ≡ (eqb view.kind kind && not (expired view.expires slot) && same_key (key_of (action_at region.now view)) key.now) }
{
    view.kind == kind
        && !is_expired(view.expires, slot) // an expired entry has no key
        && key::same_key(key_of(region, view), key)
}

fn in_live_list(region: &[u8], views: &[ActionView], kind: u8, slot: u64, key: &[u8]) -> bool
    ensures { result ≡ in_live_list kind slot key.now (actions_in region.now views.now) }
{
    views
        .iter()
        .any(|view| has_key(region, *view, kind, slot, key))
}

fn not_whitelisted(region: &[u8], views: &[ActionView], slot: u64, key: &[u8]) -> bool
    ensures { result ≡ (ltb 0 (how_often program_whitelist (kinds_in views.now)) && not (in_live_list program_whitelist slot key.now (actions_in region.now views.now))) }
{
    how_often(views, PROGRAM_WHITELIST) > 0
        && !in_live_list(region, views, PROGRAM_WHITELIST, slot, key)
}

fn lists_answer(region: &[u8], views: &[ActionView], slot: u64, key: &[u8]) -> Answer
    ensures { result ≡ lists_answer slot (actions_in region.now views.now) key.now }
{
    if not_whitelisted(region, views, slot, key) {
        return Err(Refusal::ActionProgramNotWhitelisted);
    }
    if in_live_list(region, views, PROGRAM_BLACKLIST, slot, key) {
        return Err(Refusal::ActionProgramBlacklisted);
    }
    Ok(())
}

fn program_answer(
    region: &[u8],
    views: &[ActionView],
    table: Table,
    slot: u64,
    program: usize,
) -> Answer
    ensures { result ≡ program_answer slot (actions_in region.now views.now) (table_records table.entry) program }
{
    let Some(record) = table.records.get(program) else {
        return Err(Refusal::InvalidInstructionData);
    };
    lists_answer(region, views, slot, record_key(table.bytes, *record))
}

// Each instruction's program in turn; the first failure decides.
pub fn evaluate_pre_actions(
    region: &[u8],
    views: &[ActionView],
    table: Table,
    programs: &[usize],
    slot: u64,
) -> Answer
    ensures { result ≡ programs_answer slot (actions_in region.now views.now) (table_records table.entry) programs.now }
{
    for program in programs {
        program_answer(region, views, table, slot, *program)?;
    }
    Ok(())
}
