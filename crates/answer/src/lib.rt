// The table of numbers. What is refused is refused with one of them; 0 is the number of acceptance.
#![tactic(auto)]

ghost use Rattle.std.specs.Prelude.{◌≡◌};
ghost use Rattle.answer.specs.Numbers.{number_of};

// Why something is refused.
#[derive(Clone, Copy, Debug, PartialEq, Eq)]
pub enum Refusal {
    ActionBufferInvalid = 1,
    ActionWhitelistBlacklistConflict = 2,
    InvalidInstructionData = 3,
    ActionProgramNotWhitelisted = 4,
    ActionProgramBlacklisted = 5,
    ActionSolMaxPerTxExceeded = 6,
    ActionSolLimitExceeded = 7,
    ActionSolRecurringLimitExceeded = 8,
    ActionTokenMaxPerTxExceeded = 9,
    ActionTokenLimitExceeded = 10,
    ActionTokenRecurringLimitExceeded = 11,
    SessionTokenAuthorityChanged = 12,
    BadTable = 13,
    NoRoom = 14,
    BadRegion = 15,
    NotEncodable = 16,
}

pub type Answer = Result<(), Refusal>;

// The one number that no refusal has.
pub const ACCEPTED: u32 = 0;

// The number of an answer. A function and no `From`: the library's Result takes no impl of ours.
pub fn number_of(answer: Answer) -> u32
    ensures { result ≡ number_of answer }
{
    match answer {
        Ok(()) => ACCEPTED,
        Err(refusal) => refusal as u32,
    }
}
