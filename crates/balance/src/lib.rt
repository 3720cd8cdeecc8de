// A mint's balance over the records of a table, and those of a list of mints in one walk.
#![tactic(auto)]

ghost use Rattle.std.specs.Prelude.{◌≡◌, List, map, ℕ};
ghost use Rattle.number.specs.Number.{capped_sum};
ghost use Rattle.keys.specs.Views.{keys_in};
ghost use Rattle.account.specs.Views.{record_at, table_records};
ghost use Rattle.token.specs.Tokens.{is_counted};
ghost use Rattle.balance.specs.Balance.{share, balance as balance_of};
ghost use Rattle.balance.specs.Views.{sums_of, with_record};

use account::{RecordView, Table};
use keys::{Keys, MAX_KEYS};
use token::{amount_of, is_held_by, is_token_account, mint_of};

// At most sixteen sums, of mints or of actions. No `ArrayVec`: `sums_of` promises zeros past the last.
#[derive(Clone, Copy)]
pub struct Sums {
    pub list: [u64; 16],
}

// Whether a record is a token account that the vault holds. Asked of each record, so it stands where it is
// asked.
#[inline(always)]
fn is_counted(table: &[u8], view: RecordView, vault: &[u8]) -> bool
    ensures { result ≡ is_counted vault.now (record_at table.now view) }
{
    is_token_account(table, view) && is_held_by(table, view, vault)
}

// A total and what a record adds to it. Most records have another mint, so that is tested first.
fn added(total: u64, table: &[u8], view: RecordView, vault: &[u8], mint: &[u8]) -> u64
    ensures { result ≡ capped_sum total (share vault.now mint.now (record_at table.now view)) }
{
    if key::same_key(mint_of(table, view), mint) && is_counted(table, view, vault) {
        number::capped_sum(total, amount_of(table, view))
    } else {
        total
    }
}

// A mint's balance over the records of a table.
pub fn balance(table: Table, vault: &[u8], mint: &[u8]) -> u64
    ensures { result ≡ balance_of vault.now mint.now (table_records table.entry) }
{
    table.records.iter().fold(
        0,
        |total, view| added(total, table.bytes, *view, vault, mint),
    )
}

// Adds a record to the total of each listed mint. Whether it is counted is asked once, whatever the
// number of mints.
fn add_record(
    totals: &mut [u64; MAX_KEYS],
    table: &[u8],
    view: RecordView,
    vault: &[u8],
    mints: &Keys,
)
    ensures { totals.new ≡ with_record vault.now (record_at table.now view) (keys_in mints.now) totals.old }
{
    if !is_counted(table, view, vault) {
        return;
    }
    let mint = mint_of(table, view);
    let amount = amount_of(table, view);
    // By index: a proof knows nothing of what an adapter of `iter_mut` lends.
    for (j, key) in mints.as_slice().iter().enumerate() {
        if key.is(mint) {
            totals[j] = number::capped_sum(totals[j], amount);
        }
    }
}

// The balance of each listed mint, in one walk over the records.
pub fn balances(table: Table, vault: &[u8], mints: &Keys) -> Sums
    ensures { result ≡ sums_of (map (λ (m : List ℕ). balance_of vault.now m (table_records table.entry)) (keys_in mints.now)) }
{
    let mut list = [0u64; MAX_KEYS];
    if mints.count == 0 {
        return Sums { list };
    }
    for view in table.records {
        add_record(&mut list, table.bytes, *view, vault, mints);
    }
    Sums { list }
}
