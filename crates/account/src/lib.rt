// A table of accounts: its bytes, the views of its records, and the parts of the record that a view names,
// each as it lies in the bytes. Any bytes get an answer.
#![tactic(auto, unfolding(crate::specs::Views::record_at))]

ghost use Rattle.std.specs.Prelude.{◌≡◌, drop};
ghost use Rattle.account.specs.Views.{record_at};

use key::KEY_LENGTH;
use part::part_at;

pub const RECORD_HEADER_SIZE: usize = 68;

// A record of a table: where it starts and how long its data is.
#[derive(Clone, Copy, Default)]
pub struct RecordView {
    pub at: usize,
    pub len: usize,
}

// A table's bytes, and the views of its records.
#[derive(Clone, Copy)]
pub struct Table<'a> {
    pub bytes: &'a [u8],
    pub records: &'a [RecordView],
}

const OWNER_PLACE: usize = 32;

// The bytes from `at` on, none where it is past the end.
fn from(bytes: &[u8], at: usize) -> &[u8]
    ensures { result.now ≡ drop at bytes.now }
{
    &bytes[at.min(bytes.len())..]
}

pub fn record_key(table: &[u8], view: RecordView) -> &[u8]
    ensures { result.now ≡ (record_at table.now view).key }
{
    part_at(from(table, view.at), 0, KEY_LENGTH)
}

// The program that owns the record.
pub fn record_owner(table: &[u8], view: RecordView) -> &[u8]
    ensures { result.now ≡ (record_at table.now view).owner }
{
    part_at(from(table, view.at), OWNER_PLACE, KEY_LENGTH)
}

// The record's data.
pub fn record_payload(table: &[u8], view: RecordView) -> &[u8]
    ensures { result.now ≡ (record_at table.now view).payload }
{
    part_at(from(table, view.at), RECORD_HEADER_SIZE, view.len)
}
