// The co-signer's boundary: creation and the judged call, each answering with a number of the table, and the version of the
// boundary. `thimbleford_c` exports the three as C functions.
#![tactic(auto)]

ghost use Rattle.std.specs.Prelude.{◌≡◌};
ghost use Rattle.answer.specs.Numbers.{number_of};
ghost use Rattle.creation.specs.Creation.{creation};
ghost use Rattle.judge.specs.Judge.{call_of, judged, region_after};
ghost use Rattle.thimbleford.specs.Boundary.{boundary_version};

use answer::number_of;
use creation::validate_actions_buffer;
use judge::{Call, judge};

const BOUNDARY_VERSION: u32 = 1;

// The boundary's version: whoever was made for another one asks before the first call, and calls nothing else.
pub fn thimbleford_version() -> u32
    ensures { result ≡ boundary_version }
{
    BOUNDARY_VERSION
}

// What creation answers to a region.
pub fn thimbleford_create(region: &[u8]) -> u32
    ensures { result ≡ number_of (creation region.now) }
{
    number_of(validate_actions_buffer(region))
}

// What a judged call answers; only an accepted one writes the region. The parameters are those of C.
pub fn thimbleford_judge(
    region: &mut [u8],
    before: &[u8],
    after: &[u8],
    instructions: &[u8],
    vault: &[u8],
    slot: u64,
    lamports_before: u64,
    lamports_after: u64,
    gross: u64,
) -> u32
    ensures { (result ≡ number_of (judged region.old (call_of before.now after.now instructions.now vault.now slot lamports_before lamports_after gross))) × (region.new ≡ region_after region.old (call_of before.now after.now instructions.now vault.now slot lamports_before lamports_after gross)) }
{
    let call = Call {
        before,
        after,
        instructions,
        vault,
        slot,
        lamports_before,
        lamports_after,
        gross,
    };
    number_of(judge(region, call))
}
