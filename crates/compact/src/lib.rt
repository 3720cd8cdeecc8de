// Compact instructions: reading a list from lent bytes. An entry names its accounts and its data as
// ranges of the lent bytes; nothing is copied.
#![tactic(auto)]

ghost use Rattle.std.specs.Prelude.{◌≡◌, ◌≤◌, length, drop};
ghost use Rattle.compact.specs.Compact.{decode_one};
ghost use Rattle.compact.specs.Entries.{within, entries_in};
ghost use Rattle.compact.specs.Views.{reading, parsed_programs, head_of, Kept};

use answer::Refusal;
use arrayvec::ArrayVec;
use std::marker::Model;

pub const MAX_COMPACT_INSTRUCTIONS: usize = 16;

// A part of a source, by its start and its length. No `std::ops::Range`: its end could pass the highest number;
// and not `frame::Part`, since the definitions of the two crates name their fields (`within`, `part_in`).
#[derive(Clone, Copy, Default)]
pub struct Range {
    pub start: usize,
    pub len: usize,
}

#[derive(Clone, Copy, Default)]
pub struct Entry {
    pub program: u8,
    pub accounts: Range,
    pub payload: Range,
}

// At most sixteen entries. What is read may be copied, and an `ArrayVec` may not; a contract sees the same of both.
#[derive(Clone, Copy)]
pub struct Entries {
    list: [Entry; MAX_COMPACT_INSTRUCTIONS],
    count: usize,
}

impl Model for Entries {
    ghost use Rattle.std.specs.Prelude.{take};
    ghost use Rattle.arrayvec.specs.ArrayVec.{ArrayVec as Items};
    ghost use Rattle.compact.specs.declared.Entry.{Entry};

    ghost Value = { Items Entry };

    ghost use Rattle.compact.specs.Laid.{Laid, laid, laid_again};

    ghost view = { λ e. record { items = take e.count e.list } };

    ghost invariant = { Laid };

    ghost inverse = { laid };

    ghost inverse_ok = { laid_again };
}

impl Entries {
    fn of(entries: &ArrayVec<Entry, MAX_COMPACT_INSTRUCTIONS>) -> Self
        ensures { result ≡ entries.now }
    {
        let count = entries.len();
        let mut list = [Entry::default(); MAX_COMPACT_INSTRUCTIONS];
        list[..count].copy_from_slice(entries.as_slice());
        Entries { list, count }
    }

    pub fn as_slice(&self) -> &[Entry]
        ensures { result.now ≡ entries_in self.now }
    {
        &self.list[..self.count]
    }
}

#[derive(Clone, Copy)]
pub struct ParsedInstructions {
    pub entries: Entries,
    pub consumed: usize,
}

// The instruction that begins at `at`, and the place after it. Places are counted, since an entry names
// places of the lent bytes, which no pattern of a slice gives.
fn head_at(bytes: &[u8], at: usize) -> Result<(Entry, usize), Refusal>
    requires { at ≤ length bytes.now }
    ensures { result ≡ head_of at (decode_one (drop at bytes.now)) }
{
    let left = bytes.len() - at;
    if left < 4 {
        return Err(Refusal::InvalidInstructionData);
    }
    let count = bytes[at + 1] as usize;
    if left - 4 < count {
        return Err(Refusal::InvalidInstructionData);
    }
    let size_at = at + 2 + count;
    let size = number::read_u16(bytes, size_at) as usize;
    if left - 4 - count < size {
        return Err(Refusal::InvalidInstructionData);
    }
    let entry = Entry {
        program: bytes[at],
        accounts: Range {
            start: at + 2,
            len: count,
        },
        payload: Range {
            start: size_at + 2,
            len: size,
        },
    };
    Ok((entry, size_at + 2 + size))
}

// The list at the front of `bytes`: what is kept of each entry, and the bytes consumed.
fn parse<T: Copy + Default, F: Fn(Entry) -> T>(
    bytes: &[u8],
    keep: F,
) -> Result<(ArrayVec<T, MAX_COMPACT_INSTRUCTIONS>, usize), Refusal>
    requires { F.IsAlwaysCallable keep }
    ensures { Kept (λ e x. F.post keep e x) (reading bytes.now) result }
{
    let [count, ..] = *bytes else {
        return Err(Refusal::InvalidInstructionData);
    };
    let count = count as usize;
    if count > MAX_COMPACT_INSTRUCTIONS {
        return Err(Refusal::InvalidInstructionData);
    }
    let mut list = ArrayVec::new();
    let mut at = 1;
    for _ in 0..count {
        let (entry, next) = head_at(bytes, at)?;
        list.push(keep(entry));
        at = next;
    }
    Ok((list, at))
}

// The list at the front of `bytes`; what follows it is ignored.
pub fn parse_compact_instructions(bytes: &[u8]) -> Result<ParsedInstructions, Refusal>
    ensures { result ≡ reading bytes.now }
{
    let (entries, consumed) = parse(bytes, |entry| entry)?;
    Ok(ParsedInstructions {
        entries: Entries::of(&entries),
        consumed,
    })
}

// What a judged call needs of the list at the front of `bytes`: the program index of each entry.
pub fn parse_programs(bytes: &[u8]) -> Result<ArrayVec<usize, MAX_COMPACT_INSTRUCTIONS>, Refusal>
    ensures { result ≡ parsed_programs (reading bytes.now) }
{
    let (programs, _) = parse(bytes, |entry| entry.program as usize)?;
    Ok(programs)
}

// Whether a range lies within a source. No sum is made: a range may name any place.
pub fn within(source: &[u8], range: Range) -> bool
    ensures { result ≡ within source.now range }
{
    source.len() >= range.start && range.len <= source.len() - range.start
}
