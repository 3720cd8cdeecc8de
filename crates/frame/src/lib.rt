// The replay's input: its opening and its calls, cut from the front of lent bytes. Any bytes get an
// answer. A part is named by its place in the bytes, and nothing is copied.
#![tactic(auto)]

ghost use Rattle.std.specs.Prelude.{◌≡◌};
ghost use Rattle.frame.specs.Frame.{opening_size, part_in, parts_length, whole_call, front_of};
ghost use Rattle.frame.specs.Views.{call_size};

use part::part_at;

pub const REGION_LENGTH_SIZE: usize = 2;

pub const CALL_HEAD_SIZE: usize = 76;

pub const MAX_PARTS: usize = 60000;

const LAMPORTS_BEFORE_PLACE: usize = 8;

const LAMPORTS_AFTER_PLACE: usize = 16;

const GROSS_PLACE: usize = 24;

const TABLE_BEFORE_PLACE: usize = 32;

const TABLE_AFTER_PLACE: usize = 36;

const INSTRUCTIONS_PLACE: usize = 40;

const VAULT_PLACE: usize = 44;

const VAULT_LENGTH: usize = 32;

// Where a part lies in the bytes that it was cut from.
#[derive(Clone, Copy)]
pub struct Part {
    pub at: usize,
    pub len: usize,
}

impl Part {
    // The bytes that it names, nothing where they are not all there.
    pub fn of(self, bytes: &[u8]) -> &[u8]
        ensures { result.now ≡ part_in bytes.now self }
    {
        part_at(bytes, self.at, self.len)
    }
}

// A call as it lies in some bytes: its four numbers, and where its vault key, tables and instructions lie.
#[derive(Clone, Copy)]
pub struct CallView {
    pub slot: u64,
    pub lamports_before: u64,
    pub lamports_after: u64,
    pub gross: u64,
    pub vault: Part,
    pub before: Part,
    pub after: Part,
    pub instructions: Part,
}

// What some bytes begin with: a whole call, a call whose parts are too long, or too few bytes to tell. An enum
// and no `Result`: the definition `front_of` has its three cases, and neither of the last two is an error yet.
#[derive(Clone, Copy)]
pub enum Front {
    Whole(CallView),
    Long,
    Short,
}

// How many bytes the opening has, as far as these tell: without its length, the two of the length.
pub fn opening_size(bytes: &[u8]) -> usize
    ensures { result ≡ opening_size bytes.now }
{
    REGION_LENGTH_SIZE + number::read_u16(bytes, 0) as usize
}

// The call whose head stands at the front, as if its parts were there.
fn whole_call(bytes: &[u8]) -> CallView
    ensures { result ≡ whole_call bytes.now }
{
    let before = Part {
        at: CALL_HEAD_SIZE,
        len: number::read_u32(bytes, TABLE_BEFORE_PLACE) as usize,
    };
    let after = Part {
        at: before.at + before.len,
        len: number::read_u32(bytes, TABLE_AFTER_PLACE) as usize,
    };
    let instructions = Part {
        at: after.at + after.len,
        len: number::read_u32(bytes, INSTRUCTIONS_PLACE) as usize,
    };
    CallView {
        slot: number::read_u64(bytes, 0),
        lamports_before: number::read_u64(bytes, LAMPORTS_BEFORE_PLACE),
        lamports_after: number::read_u64(bytes, LAMPORTS_AFTER_PLACE),
        gross: number::read_u64(bytes, GROSS_PLACE),
        vault: Part {
            at: VAULT_PLACE,
            len: VAULT_LENGTH,
        },
        before,
        after,
        instructions,
    }
}

fn parts_length(bytes: &[u8]) -> usize
    ensures { result ≡ parts_length bytes.now }
{
    let call = whole_call(bytes);
    call.before.len + call.after.len + call.instructions.len
}

// How many bytes a call has, as far as these tell: its head, and with a whole head its parts, unless
// they are too long.
pub fn call_size(bytes: &[u8]) -> usize
    ensures { result ≡ call_size bytes.now }
{
    if bytes.len() < CALL_HEAD_SIZE {
        return CALL_HEAD_SIZE;
    }
    let len = parts_length(bytes);
    if MAX_PARTS < len {
        return CALL_HEAD_SIZE;
    }
    CALL_HEAD_SIZE + len
}

pub fn read_call(bytes: &[u8]) -> Front
    ensures { result ≡ front_of bytes.now }
{
    if bytes.len() < CALL_HEAD_SIZE {
        return Front::Short;
    }
    let len = parts_length(bytes);
    if MAX_PARTS < len {
        return Front::Long;
    }
    if bytes.len() - CALL_HEAD_SIZE < len {
        return Front::Short;
    }
    Front::Whole(whole_call(bytes))
}
