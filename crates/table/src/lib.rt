// The account table: cutting it into views of its records, in one pass over their headers. Any bytes get
// an answer.
#![tactic(auto)]

ghost use Rattle.std.specs.Prelude.{◌≡◌, [], OnOk};
ghost use Rattle.std.specs.Result.{result_unwrap_or};
ghost use Rattle.answer.specs.Numbers.{answer_of};
ghost use Rattle.answer.specs.Refusable.{Ok};
ghost use Rattle.table.specs.Table.{cut_table};
ghost use Rattle.table.specs.Views.{read_at, places_of};

use account::{RECORD_HEADER_SIZE, RecordView};
use answer::{Answer, Refusal};
use arrayvec::ArrayVec;

pub const TABLE_HEADER_SIZE: usize = 2;

pub const MAX_RECORDS: usize = 64;

const DATA_LENGTH_PLACE: usize = 64;

// The view of the record that starts at `at`; refused where its header or its data passes the end.
fn read_record(table: &[u8], at: usize) -> Result<RecordView, Refusal>
    ensures { result ≡ read_at table.now at }
{
    if table.len() < at {
        return Err(Refusal::BadTable);
    }
    let left = table.len() - at;
    if left < RECORD_HEADER_SIZE {
        return Err(Refusal::BadTable);
    }
    let len = number::read_u32(table, at + DATA_LENGTH_PLACE) as usize;
    if left - RECORD_HEADER_SIZE < len {
        return Err(Refusal::BadTable);
    }
    Ok(RecordView { at, len })
}

// Reads the views of a table's records into a list that has none, as far as they are sound.
fn read_records(table: &[u8], views: &mut ArrayVec<RecordView, MAX_RECORDS>) -> Answer
    requires { views.old.items ≡ [] }
    ensures answer { result ≡ answer_of (places_of (cut_table table.now)) }
    ensures all { OnOk result (places_of (cut_table table.now) ≡ Ok views.new) }
{
    if table.len() < TABLE_HEADER_SIZE {
        return Err(Refusal::BadTable);
    }
    let counted = number::read_u16(table, 0) as usize;
    if MAX_RECORDS < counted {
        return Err(Refusal::BadTable);
    }
    let mut at = TABLE_HEADER_SIZE;
    for _ in 0..counted {
        let view = read_record(table, at)?;
        at = view.at + RECORD_HEADER_SIZE + view.len;
        views.push(view);
    }
    if at < table.len() {
        return Err(Refusal::BadTable);
    }
    Ok(())
}

// Cuts a table into the views of its records, in order, which are all that a list has afterwards; none on a
// refusal. Lent, since a list that is answered by value is copied twice on its way out.
pub fn cut_into(table: &[u8], views: &mut ArrayVec<RecordView, MAX_RECORDS>) -> Answer
    ensures answer { result ≡ answer_of (places_of (cut_table table.now)) }
    ensures views_after { views.new ≡ result_unwrap_or (places_of (cut_table table.now)) (record { items = [] }) }
{
    views.clear();
    let answer = read_records(table, views);
    if answer.is_err() {
        views.clear();
    }
    answer
}

// The views of a table's records, in order.
pub fn cut_places(table: &[u8]) -> Result<ArrayVec<RecordView, MAX_RECORDS>, Refusal>
    ensures { result ≡ places_of (cut_table table.now) }
{
    let mut views = ArrayVec::new();
    cut_into(table, &mut views)?;
    Ok(views)
}
