// One action: the codes of the types and their data lengths, where an action lies, and the fields of its
// data. Any bytes get an answer.
#![tactic(auto)]

pub mod fields;

ghost use Rattle.std.specs.Prelude.{◌≡◌};
ghost use Rattle.action.specs.Action.{data_length};

// The types stay codes and are no enum: the definitions and theorems over an action take any code
// (`data_length`, `refusal_of`), and an enum with a variant for the other bytes would be turned back into its
// code wherever one of them is asked.
pub const SOL_LIMIT: u8 = 1;

pub const SOL_RECURRING_LIMIT: u8 = 2;

pub const SOL_MAX_PER_TX: u8 = 3;

pub const TOKEN_LIMIT: u8 = 4;

pub const TOKEN_RECURRING_LIMIT: u8 = 5;

pub const TOKEN_MAX_PER_TX: u8 = 6;

pub const PROGRAM_WHITELIST: u8 = 10;

pub const PROGRAM_BLACKLIST: u8 = 11;

// An action of a region: its type's code, its expiry, and where its data starts and how long it is.
#[derive(Clone, Copy, Default)]
pub struct ActionView {
    pub kind: u8,
    pub expires: u64,
    pub at: usize,
    pub len: usize,
}

// The data lengths by type code, 0 for unknown codes.
const DATA_LENGTHS: [usize; 12] = [0, 8, 32, 8, 40, 64, 40, 0, 0, 0, 32, 32];

pub fn expected_data_size(code: u8) -> usize
    ensures { result ≡ data_length code }
{
    let i = code as usize;
    if i < 12 { DATA_LENGTHS[i] } else { 0 }
}
