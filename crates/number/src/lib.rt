// Numbers of 2, 4 and 8 bytes in a lent slice, the lowest byte first, and the two sums that stop
// at an end of their range. Any place and any slice get an answer.
#![tactic(auto)]

ghost use Rattle.std.specs.Prelude.{◌≡◌, ◌+◌, ◌<◌, ◌≤◌, leb, length, take, drop, MatchOption};
ghost use Rattle.number.specs.Number.{number_at, with_number_at, capped_sum, floored_difference};

// The N bytes at `at`, where they are all there. No sum is made before it is known to fit.
// Held against the last place that fits: `get(at..)?.first_chunk()` is a test more for each read, with which a
// judged call on 64 records took up to 1.15 times as long.
fn bytes_at<const N: usize>(bytes: &[u8], at: usize) -> Option<&[u8; N]>
    ensures { MatchOption result (length bytes.now < at + N) (λ it. (at + N ≤ length bytes.now) × (it.now ≡ take N (drop at bytes.now))) }
{
    if bytes.len().checked_sub(N)? < at {
        return None;
    }
    bytes[at..at + N].as_array()
}

// The number of the two bytes at `at`, or 0 where they are not all there.
pub fn read_u16(bytes: &[u8], at: usize) -> u16
    ensures { result ≡ number_at 2 bytes.now at }
{
    bytes_at(bytes, at).map_or(0, |two| u16::from_le_bytes(*two))
}

// The number of the four bytes at `at`, or 0 where they are not all there.
pub fn read_u32(bytes: &[u8], at: usize) -> u32
    ensures { result ≡ number_at 4 bytes.now at }
{
    bytes_at(bytes, at).map_or(0, |four| u32::from_le_bytes(*four))
}

// The number of the eight bytes at `at`, or 0 where they are not all there.
pub fn read_u64(bytes: &[u8], at: usize) -> u64
    ensures { result ≡ number_at 8 bytes.now at }
{
    bytes_at(bytes, at).map_or(0, |eight| u64::from_le_bytes(*eight))
}

// Writes the eight bytes of `value` at `at`, or nothing where they do not all fit there; says
// whether it wrote.
pub fn write_u64(bytes: &mut [u8], at: usize, value: u64) -> bool
    ensures { (result ≡ leb (at + 8) (length bytes.old)) × (bytes.new ≡ with_number_at 8 bytes.old at value) }
{
    if bytes_at::<8>(bytes, at).is_none() {
        return false;
    }
    bytes[at..at + 8].copy_from_slice(&value.to_le_bytes());
    true
}

// a + b, or the highest number where the sum passes it.
pub fn capped_sum(a: u64, b: u64) -> u64
    ensures { result ≡ capped_sum a b }
{
    a.saturating_add(b)
}

// a - b, or 0 where b is larger.
pub fn floored_difference(a: u64, b: u64) -> u64
    ensures { result ≡ floored_difference a b }
{
    a.saturating_sub(b)
}
