// The C functions of `libthimbleford.a`: those of the library `thimbleford`, which says what they are, exported under their
// names. Each states its library function's contract again.
#![tactic(auto)]

ghost use Rattle.std.specs.Prelude.{◌≡◌};
ghost use Rattle.answer.specs.Numbers.{number_of};
ghost use Rattle.creation.specs.Creation.{creation};
ghost use Rattle.judge.specs.Judge.{call_of, judged, region_after};
ghost use Rattle.thimbleford.specs.Boundary.{boundary_version};

// The boundary's version: whoever was made for another one asks before the first call, and calls nothing else.
#[unsafe(no_mangle)]
pub extern "C" fn thimbleford_version() -> u32
    ensures { result ≡ boundary_version }
{
    thimbleford::thimbleford_version()
}

// What creation answers to a region.
#[unsafe(no_mangle)]
pub extern "C" fn thimbleford_create(region: &[u8]) -> u32
    ensures { result ≡ number_of (creation region.now) }
{
    thimbleford::thimbleford_create(region)
}

// What a judged call answers; only an accepted one writes the region.
#[unsafe(no_mangle)]
pub extern "C" fn thimbleford_judge(
    region: &mut [u8],
    before: &[u8],
    after: &[u8],
    instructions: &[u8],
    vault: &[u8],
    slot: u64,
    lamports_before: u64,
    lamports_after: u64,
    gross: u64,
) -> u32
    ensures { (result ≡ number_of (judged region.old (call_of before.now after.now instructions.now vault.now slot lamports_before lamports_after gross))) × (region.new ≡ region_after region.old (call_of before.now after.now instructions.now vault.now slot lamports_before lamports_after gross)) }
{
    thimbleford::thimbleford_judge(
        region,
        before,
        after,
        instructions,
        vault,
        slot,
        lamports_before,
        lamports_after,
        gross,
    )
}
