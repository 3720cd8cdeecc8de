// Token accounts: which records are one, and their mint, holder and amount.
#![tactic(auto)]

mod programs;

ghost use Rattle.std.specs.Prelude.{◌≡◌};
ghost use Rattle.key.specs.Key.{same_key};
ghost use Rattle.account.specs.Views.{record_at};
ghost use Rattle.token.specs.Tokens.{is_token2022_account, is_token_account, mint_of, holder_of, amount_of};

use crate::programs::{SPL_TOKEN, TOKEN_2022};
use account::{RecordView, record_owner, record_payload};

const TOKEN_ACCOUNT_SIZE: usize = 165;

const TOKEN_OWNER_OFFSET: usize = 32;

const TOKEN_AMOUNT_OFFSET: usize = 64;

// What Token-2022 puts behind an account begins with a byte that says that it is one.
const ACCOUNT_TYPE_OFFSET: usize = 165;

const ACCOUNT_TYPE: u8 = 2;

const MULTISIG_SIZE: usize = 355;

// Whether data is a token account's under Token-2022. A multisignature record has a part of a key
// where others say what they are, so its length decides.
fn is_token_2022_account(payload: &[u8]) -> bool
    ensures { result ≡ is_token2022_account payload.now }
{
    let size = payload.len();
    if size <= TOKEN_ACCOUNT_SIZE {
        return size == TOKEN_ACCOUNT_SIZE;
    }
    if size == MULTISIG_SIZE {
        return false;
    }
    payload[ACCOUNT_TYPE_OFFSET] == ACCOUNT_TYPE
}

// Whether a record is a token account by the published layouts. Whoever counts or freezes records
// asks here; what is too short is answered first because that is the cheaper test.
pub fn is_token_account(table: &[u8], view: RecordView) -> bool
    ensures { result ≡ is_token_account (record_at table.now view) }
{
    let payload = record_payload(table, view);
    if payload.len() < TOKEN_ACCOUNT_SIZE {
        return false;
    }
    let owner = record_owner(table, view);
    if key::same_key(owner, &SPL_TOKEN) {
        return payload.len() == TOKEN_ACCOUNT_SIZE;
    }
    if !key::same_key(owner, &TOKEN_2022) {
        return false;
    }
    is_token_2022_account(payload)
}

// The mint of a token account, or what there is of it.
pub fn mint_of(table: &[u8], view: RecordView) -> &[u8]
    ensures { result.now ≡ mint_of (record_at table.now view) }
{
    let payload = record_payload(table, view);
    if payload.len() < TOKEN_OWNER_OFFSET {
        return payload;
    }
    &payload[..TOKEN_OWNER_OFFSET]
}

// Whether the vault holds a token account. Data that is too short to name a holder has none.
pub fn is_held_by(table: &[u8], view: RecordView, vault: &[u8]) -> bool
    ensures { result ≡ same_key (holder_of (record_at table.now view)) vault.now }
{
    let payload = record_payload(table, view);
    if payload.len() < TOKEN_AMOUNT_OFFSET {
        return false;
    }
    key::same_key(&payload[TOKEN_OWNER_OFFSET..TOKEN_AMOUNT_OFFSET], vault)
}

// The amount of a token account.
pub fn amount_of(table: &[u8], view: RecordView) -> u64
    ensures { result ≡ amount_of (record_at table.now view) }
{
    number::read_u64(record_payload(table, view), TOKEN_AMOUNT_OFFSET)
}
