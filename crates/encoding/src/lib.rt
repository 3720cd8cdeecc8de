// Writing compact instructions: a list, as entries over a source, into a lent output.
#![tactic(auto)]

ghost use Rattle.std.specs.Prelude.{◌≡◌, true, ◌+◌, ◌≤◌, length};
ghost use Rattle.std.proofs.lemmas.List.Edits.{sets};
ghost use Rattle.compact.specs.Compact.{most_instructions, encode_one, encode};
ghost use Rattle.compact.specs.Entries.{meant, list_of};
ghost use Rattle.encoding.specs.Encoding.{encodable_one, encodable_each, writing, output_after};
ghost use Rattle.encoding.specs.Views.{size_if};

use answer::Refusal;
use compact::{Entry, MAX_COMPACT_INSTRUCTIONS, within};
use part::part_at;

pub const MAX_ACCOUNTS: usize = 255;

pub const MAX_PAYLOAD: usize = 65535;

// Whether an entry keeps the limits.
fn is_encodable(entry: Entry, source: &[u8]) -> bool
    ensures { result ≡ encodable_one source.now entry }
{
    entry.accounts.len <= MAX_ACCOUNTS
        && entry.payload.len <= MAX_PAYLOAD
        && within(source, entry.accounts)
        && within(source, entry.payload)
}

// How many bytes an entry's encoding takes.
fn size_of_one(entry: Entry, source: &[u8]) -> Result<usize, Refusal>
    ensures { result ≡ size_if (encodable_one source.now entry) (length (encode_one (meant source.now entry))) }
{
    if !is_encodable(entry, source) {
        return Err(Refusal::NotEncodable);
    }
    Ok(4 + entry.accounts.len + entry.payload.len)
}

fn size_of(entries: &[Entry], source: &[u8]) -> Result<usize, Refusal>
    requires { length entries.now ≤ most_instructions }
    ensures { result ≡ size_if (encodable_each source.now entries.now) (length (encode (list_of source.now entries.now))) }
{
    let mut size = 1;
    for entry in entries {
        size += size_of_one(*entry, source)?;
    }
    Ok(size)
}

// Writes `bytes` at `at`, and gives the place after them.
fn put(out: &mut [u8], at: usize, bytes: &[u8]) -> usize
    requires { at + length bytes.now ≤ length out.old }
    ensures place { result ≡ at + length bytes.now }
    ensures after { out.new ≡ sets out.old at bytes.now }
{
    let end = at + bytes.len();
    out[at..end].copy_from_slice(bytes);
    end
}

// Writes an entry's encoding at `at`, and gives the place after it.
fn put_one(out: &mut [u8], at: usize, source: &[u8], entry: Entry) -> usize
    requires encodable { encodable_one source.now entry ≡ true }
    requires room { at + length (encode_one (meant source.now entry)) ≤ length out.old }
    ensures place { result ≡ at + length (encode_one (meant source.now entry)) }
    ensures after { out.new ≡ sets out.old at (encode_one (meant source.now entry)) }
{
    let accounts = part_at(source, entry.accounts.start, entry.accounts.len);
    let payload = part_at(source, entry.payload.start, entry.payload.len);
    let then = put(out, at, &[entry.program, accounts.len() as u8]);
    let then = put(out, then, accounts);
    let then = put(out, then, &(payload.len() as u16).to_le_bytes());
    put(out, then, payload)
}

// Writes a list at the front of `out`; what follows the encoding stays as it was, and on a refusal
// all of it does.
pub fn serialize_compact_instructions(
    entries: &[Entry],
    source: &[u8],
    out: &mut [u8],
) -> Result<usize, Refusal>
    ensures written { result ≡ writing entries.now source.now out.old }
    ensures after { out.new ≡ output_after entries.now source.now out.old }
{
    if entries.len() > MAX_COMPACT_INSTRUCTIONS {
        return Err(Refusal::NotEncodable);
    }
    let size = size_of(entries, source)?;
    if out.len() < size {
        return Err(Refusal::NoRoom);
    }
    let mut at = put(out, 0, &[entries.len() as u8]);
    for entry in entries {
        at = put_one(out, at, source, *entry);
    }
    Ok(at)
}
