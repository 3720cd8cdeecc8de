// A part of lent bytes, by its place and its length. Any place and length get an answer.
#![tactic(auto)]

ghost use Rattle.std.specs.Prelude.{◌≡◌};
ghost use Rattle.part.specs.Part.{part_at};

// The `len` bytes at `at`, as they lie there, or the empty part where they are not all there. No sum is
// made before it is known to fit.
// Two tests, since `get(at..)` and then `get(..len)`, or a `checked_sub` and a guard, take longer: a judged
// call on 64 records 1.1 to 1.25 times as long.
pub fn part_at(bytes: &[u8], at: usize, len: usize) -> &[u8]
    ensures { result.now ≡ part_at bytes.now at len }
{
    if bytes.len() < len {
        return &bytes[..0];
    }
    if bytes.len() - len < at {
        return &bytes[..0];
    }
    &bytes[at..at + len]
}
