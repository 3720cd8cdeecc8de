// Indexes into a table: the key at one, and resolving those of an instruction.
#![tactic(auto)]

ghost use Rattle.std.specs.Prelude.{◌≡◌};
ghost use Rattle.account.specs.Views.{records_in};
ghost use Rattle.lookup.specs.Indexes.{all_below, resolvable, resolving, key_among, key_at};

use account::{RecordView, record_key};
use answer::{Answer, Refusal};
use compact::Entry;
use part::part_at;
use table::cut_places;

// The key of the record at an index of a table, or the empty part past the last.
// The key lives as long as the table's bytes and not as its views, so the two are no `Table` here.
pub fn key_at<'a>(table: &'a [u8], records: &[RecordView], index: usize) -> &'a [u8]
    ensures { result.now ≡ key_among (records_in table.now records.now) index }
{
    let Some(view) = records.get(index) else {
        return &[];
    };
    record_key(table, *view)
}

// The key at an index of a table, or the empty part for a bad index or table.
pub fn lookup(table: &[u8], index: usize) -> &[u8]
    ensures { result.now ≡ key_at table.now index }
{
    let Ok(views) = cut_places(table) else {
        return &[];
    };
    key_at(table, views.as_slice(), index)
}

fn all_below(indexes: &[u8], count: usize) -> bool
    ensures { result ≡ all_below count indexes.now }
{
    indexes.iter().all(|index| (*index as usize) < count)
}

// Whether an entry's ranges lie within its source, and its indexes are below a count.
fn is_resolvable(count: usize, source: &[u8], entry: Entry) -> bool
    ensures { result ≡ resolvable count source.now entry }
{
    let accounts = entry.accounts;
    let payload = entry.payload;
    compact::within(source, accounts)
        && compact::within(source, payload)
        && (entry.program as usize) < count
        && all_below(part_at(source, accounts.start, accounts.len), count)
}

// Whether an entry of a source can be resolved against a table. The table is looked at first.
pub fn resolve(table: &[u8], entry: Entry, source: &[u8]) -> Answer
    ensures { result ≡ resolving table.now entry source.now }
{
    let views = cut_places(table)?;
    if !is_resolvable(views.len(), source, entry) {
        return Err(Refusal::InvalidInstructionData);
    }
    Ok(())
}
