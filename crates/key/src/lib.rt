// Keys of 32 bytes. Every comparison of keys in bytes goes through `same_key`.
#![tactic(auto)]

ghost use Rattle.std.specs.Prelude.{◌≡◌};
ghost use Rattle.key.specs.Key.{same_key};
ghost use Rattle.key.specs.Views.{key_from};

pub const KEY_LENGTH: usize = 32;

#[derive(Clone, Copy, PartialEq, Eq)]
pub struct Key {
    pub bytes: [u8; 32],
}

// Whether both are keys and the same; a length other than 32 is no key. Word by word, since `==` of arrays
// is a call wherever keys are compared: with it a judged call on 64 records took 1.6 times as long.
pub fn same_key(a: &[u8], b: &[u8]) -> bool
    ensures { result ≡ same_key a.now b.now }
{
    a.len() == KEY_LENGTH
        && b.len() == KEY_LENGTH
        && (0..4).all(|i| number::read_u64(a, 8 * i) == number::read_u64(b, 8 * i))
}

// The key of a part that has its length, and zeros for any other.
pub fn key_of(part: &[u8]) -> Key
    ensures { result ≡ key_from part.now }
{
    Key {
        bytes: part.try_into().unwrap_or([0; KEY_LENGTH]),
    }
}

impl Key {
    pub fn is(self, key: &[u8]) -> bool
        ensures { result ≡ same_key self.bytes key.now }
    {
        same_key(&self.bytes, key)
    }
}
