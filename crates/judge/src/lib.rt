// The judged call: the nine steps in order.
#![tactic(auto)]

ghost use Rattle.std.specs.Prelude.{◌≡◌, cond, length};
ghost use Rattle.answer.specs.Numbers.{accepts};
ghost use Rattle.answer.specs.Refusable.{Ok};
ghost use Rattle.row.specs.Views.{actions_in};
ghost use Rattle.account.specs.Views.{records_in, table_records};
ghost use Rattle.table.specs.Table.{cut_table};
ghost use Rattle.charge.specs.Views.{charges_at, settled_at};
ghost use Rattle.judge.specs.Judge.{judged, region_after};
ghost use Rattle.judge.specs.Views.{call_lent, amounts_moved, checks_from, limits_from, rules_from};

use account::{RecordView, Table};
use action::ActionView;
use answer::{Answer, Refusal};
use arrayvec::ArrayVec;
use charge::{Class, class_answer, settle};
use compact::parse_programs;
use creation::stored_answer;
use freeze::verify_token_authorities_unchanged;
use key::KEY_LENGTH;
use keys::Keys;
use mints::listed_mints;
use number::floored_difference;
use outflow::Outflow;
use programs::evaluate_pre_actions;

// What a judged call is given besides the region.
#[derive(Clone, Copy)]
pub struct Call<'a> {
    pub before: &'a [u8],
    pub after: &'a [u8],
    pub instructions: &'a [u8],
    pub vault: &'a [u8],
    pub slot: u64,
    pub lamports_before: u64,
    pub lamports_after: u64,
    pub gross: u64,
}

// Steps 5 and 6: the programs and the freeze. Six parameters: each of the two takes its own, and `moved` alone
// is common.
fn checks_answer(
    region: &[u8],
    views: &[ActionView],
    moved: &Outflow,
    programs: &[usize],
    slot: u64,
    mints: &Keys,
) -> Answer
    ensures { result ≡ checks_from slot moved.now.vault.now (table_records moved.now.before) (table_records moved.now.after) programs.now mints.now (actions_in region.now views.now) }
{
    evaluate_pre_actions(region, views, moved.before, programs, slot)?;
    if !verify_token_authorities_unchanged(moved.before, moved.after, moved.vault, mints) {
        return Err(Refusal::SessionTokenAuthorityChanged);
    }
    Ok(())
}

// Steps 7 and 8: the SOL rules, then the token rules.
fn limits_answer(region: &[u8], views: &[ActionView], amounts: &[u64], slot: u64) -> Answer
    ensures { result ≡ limits_from slot (charges_at region.now views.now amounts.now) }
{
    class_answer(region, views, amounts, Class::Sol, slot)?;
    class_answer(region, views, amounts, Class::Tokens, slot)
}

// Steps 4 to 9, on what was cut; an empty region has no rules. Not put into its caller, where the walks over 64
// records take up to a fifth longer.
#[inline(never)]
fn judge_cut(
    region: &mut [u8],
    views: &[ActionView],
    moved: &Outflow,
    programs: &[usize],
    slot: u64,
) -> Answer
    ensures { (result ≡ rules_from slot moved.now.vault.now (table_records moved.now.before) (table_records moved.now.after) programs.now (charges_at region.old views.now (amounts_moved moved.now (actions_in region.old views.now))) (actions_in region.old views.now)) × (region.new ≡ cond (accepts result) (settled_at slot views.now (amounts_moved moved.now (actions_in region.old views.now)) region.old) region.old) }
{
    if views.is_empty() {
        return Ok(());
    }
    let mints = listed_mints(region, views);
    checks_answer(region, views, moved, programs, slot, &mints)?;
    let amounts = moved.amounts(region, views, &mints);
    limits_answer(region, views, &amounts.list, slot)?;
    settle(region, views, &amounts.list, slot);
    Ok(())
}

// The steps after the vault key and the table before, whose records these are.
fn judge_after(region: &mut [u8], call: Call, before: &[RecordView]) -> Answer
    requires { (length call.vault.now ≡ 32) × (cut_table call.before.now ≡ Ok (records_in call.before.now before.now)) }
    ensures { (result ≡ judged region.old (call_lent call.entry)) × (region.new ≡ region_after region.old (call_lent call.entry)) }
{
    let mut after = ArrayVec::new();
    table::cut_into(call.after, &mut after)?;
    let programs = parse_programs(call.instructions)?;
    let mut views = ArrayVec::new();
    let cut = region::cut_into(region, &mut views);
    stored_answer(region, cut, views.as_slice())?;
    let moved = Outflow {
        before: Table {
            bytes: call.before,
            records: before,
        },
        after: Table {
            bytes: call.after,
            records: after.as_slice(),
        },
        vault: call.vault,
        sol: floored_difference(call.lamports_before, call.lamports_after),
        gross: call.gross,
    };
    judge_cut(
        region,
        views.as_slice(),
        &moved,
        programs.as_slice(),
        call.slot,
    )
}

// Judges a call: the first failure decides, and only an accepted call writes the region.
pub fn judge(region: &mut [u8], call: Call) -> Answer
    ensures { (result ≡ judged region.old (call_lent call.entry)) × (region.new ≡ region_after region.old (call_lent call.entry)) }
{
    if call.vault.len() != KEY_LENGTH {
        return Err(Refusal::BadTable);
    }
    let mut before = ArrayVec::new();
    table::cut_into(call.before, &mut before)?;
    judge_after(region, call, before.as_slice())
}
