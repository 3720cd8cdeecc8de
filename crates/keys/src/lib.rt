// Lists of at most sixteen keys without repeats: filling one, and searching it.
#![tactic(auto)]

ghost use Rattle.std.specs.Prelude.{◌≡◌, ◌≤◌, [], length, take, position};
ghost use Rattle.key.specs.Key.{same_key};
ghost use Rattle.keys.specs.Views.{most_keys, is_among, keys_in, keys_of, with_key};

use key::{KEY_LENGTH, Key};

pub const MAX_KEYS: usize = 16;

// At most sixteen keys, without repeats. No `ArrayVec`: a count above sixteen is answered too, and what stands
// past the count is not found (edits `seventeen_looked_at`, `found_among_none`).
#[derive(Clone, Copy)]
pub struct Keys {
    pub list: [Key; 16],
    pub count: usize,
}

impl Keys {
    pub fn none() -> Self
        ensures { result ≡ keys_of [] }
    {
        Keys {
            list: [Key { bytes: [0u8; 32] }; 16],
            count: 0,
        }
    }

    // The keys that there are to look at, whatever the count says.
    pub fn as_slice(&self) -> &[Key]
        ensures counted { result.now ≡ take self.now.count self.now.list }
        ensures few { length result.now ≤ most_keys }
    {
        &self.list[..self.count.min(MAX_KEYS)]
    }

    // Where a key stands.
    pub fn position(&self, key: &[u8]) -> Option<usize>
        ensures { result ≡ position (λ k. same_key k key.now) (keys_in self.now) }
    {
        self.as_slice().iter().position(|k| k.is(key))
    }

    pub fn holds(&self, key: &[u8]) -> bool
        ensures { result ≡ is_among key.now (keys_in self.now) }
    {
        self.as_slice().iter().any(|k| k.is(key))
    }

    // Puts a key in, unless the list is full, the key is none, or it is there.
    pub fn push(&mut self, key: &[u8])
        ensures { self.new ≡ with_key self.old key.now }
    {
        if MAX_KEYS <= self.count || key.len() != KEY_LENGTH || self.holds(key) {
            return;
        }
        self.list[self.count] = key::key_of(key);
        self.count += 1;
    }
}
