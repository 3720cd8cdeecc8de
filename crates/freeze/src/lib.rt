// Step 6: the authorities of the vault's token accounts of listed mints stay as they were.
#![tactic(auto)]

ghost use Rattle.std.specs.Prelude.{◌≡◌, ◌&&◌, List, ℕ, leb, length};
ghost use Rattle.keys.specs.Views.{is_among, keys_in};
ghost use Rattle.account.specs.Views.{record_at, table_records};
ghost use Rattle.token.specs.Tokens.{token_account_length};
ghost use Rattle.freeze.specs.Freeze.{first_with_key, same_authorities, is_still, is_found_still, keeps_freeze, all_frozen};
ghost use Rattle.freeze.specs.Views.{same_key_at, same_optional_key_at};

use account::{RecordView, Table, record_key, record_payload};
use key::KEY_LENGTH;
use keys::Keys;
use part::part_at;
use token::{is_held_by, is_token_account, mint_of};

const OWNER_OFFSET: usize = 32;

const DELEGATE_TAG_OFFSET: usize = 72;

const DELEGATE_OFFSET: usize = 76;

const CLOSE_AUTHORITY_TAG_OFFSET: usize = 129;

const CLOSE_AUTHORITY_OFFSET: usize = 133;

fn same_key_at(a: &[u8], b: &[u8], at: usize) -> bool
    ensures { result ≡ same_key_at at a.now b.now }
{
    key::same_key(part_at(a, at, KEY_LENGTH), part_at(b, at, KEY_LENGTH))
}

// Whether both have the same optional key: a tag of four bytes says whether there is one.
fn same_optional_key_at(a: &[u8], b: &[u8], tag: usize, at: usize) -> bool
    ensures { result ≡ same_optional_key_at tag at a.now b.now }
{
    number::read_u32(a, tag) == number::read_u32(b, tag) && same_key_at(a, b, at)
}

// Whether the second data has all frozen fields, and the first the same.
fn same_authorities(a: &[u8], b: &[u8]) -> bool
    ensures { result ≡ (leb token_account_length (length b.now) && same_authorities a.now b.now) }
{
    same_key_at(a, b, OWNER_OFFSET)
        && same_optional_key_at(a, b, DELEGATE_TAG_OFFSET, DELEGATE_OFFSET)
        && same_optional_key_at(a, b, CLOSE_AUTHORITY_TAG_OFFSET, CLOSE_AUTHORITY_OFFSET)
}

// Whether a record is still the account that had the data.
fn is_still(payload: &[u8], table: &[u8], view: RecordView) -> bool
    ensures { result ≡ is_still payload.now (record_at table.now view) }
{
    is_token_account(table, view) && same_authorities(payload, record_payload(table, view))
}

// Whether the first record with the key is still that account.
fn still_there(payload: &[u8], key: &[u8], table: Table) -> bool
    ensures { result ≡ is_found_still payload.now (first_with_key key.now (table_records table.entry)) }
{
    match table
        .records
        .iter()
        .find(|view| key::same_key(record_key(table.bytes, **view), key))
    {
        Some(view) => is_still(payload, table.bytes, *view),
        None => false,
    }
}

// Whether a record before that is a counted account of a listed mint is still there after.
fn keeps_freeze(before: &[u8], view: RecordView, after: Table, vault: &[u8], mints: &Keys) -> bool
    ensures { result ≡ keeps_freeze vault.now (λ (mint : List ℕ). is_among mint (keys_in mints.now)) (table_records after.entry) (record_at before.now view) }
{
    if !mints.holds(mint_of(before, view))
        || !is_token_account(before, view)
        || !is_held_by(before, view, vault)
    {
        return true;
    }
    still_there(
        record_payload(before, view),
        record_key(before, view),
        after,
    )
}

// Whether each counted account of the table before whose mint is listed is still there after.
pub fn verify_token_authorities_unchanged(
    before: Table,
    after: Table,
    vault: &[u8],
    mints: &Keys,
) -> bool
    ensures { result ≡ all_frozen vault.now (λ (mint : List ℕ). is_among mint (keys_in mints.now)) (table_records after.entry) (table_records before.entry) }
{
    mints.count == 0
        || before.records.iter().all(|view| keeps_freeze(before.bytes, *view, after, vault, mints))
}
