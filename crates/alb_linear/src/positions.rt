ghost use Rattle.std.specs.Prelude.{◌≡◌, ◌+◌, ◌<◌, ◌≤◌, ◌++◌, [], All, length};
ghost use Rattle.std.specs.List.{insert, range_with_len};

use arrayvec::ArrayVec;
use std::marker::Model;

/// At most 8 positions of an identity in some order. Contracts see the list.
#[derive(Drop)]
pub struct Places {
    list: ArrayVec<u8, 8>,
}

impl Model for Places {
    ghost use Rattle.std.specs.Prelude.{List, ℕ, ◌<◌, All};

    ghost Value = { List ℕ };

    ghost view = { λ a. a.list.items };

    ghost invariant = { λ a. All (λ k. k < 26) a.list.items };
}

// Appends a list.
fn push_all(list: &mut ArrayVec<u8, 8>, more: &[u8])
    requires { length list.old.items + length more.now ≤ 8 }
    ensures { list.new.items ≡ list.old.items ++ more.now }
{
    for k in more {
        list.push(*k);
    }
}

impl Places {
    /// No positions.
    pub fn empty() -> Places
        ensures { result ≡ [] }
    {
        Places {
            list: ArrayVec::new(),
        }
    }

    /// The positions 0 to `n - 1`.
    pub fn first(n: u8) -> Places
        requires { n ≤ 8 }
        ensures { result ≡ range_with_len 0 n }
    {
        let mut list = ArrayVec::new();
        for k in 0..n {
            list.push(k);
        }
        Places { list }
    }

    /// The positions.
    pub fn list(&self) -> &[u8]
        ensures value { result.now ≡ self.now }
        ensures few { length result.now ≤ 8 }
        ensures small { All (λ k. k < 26) result.now }
    {
        self.list.as_slice()
    }

    /// These positions with one more at the place `at`.
    pub fn with(&self, at: usize, k: u8) -> Places
        requires place { at ≤ length self.now }
        requires room { length self.now < 8 }
        requires small { k < 26 }
        ensures { result ≡ insert self.now at k }
    {
        let mut list = ArrayVec::new();
        push_all(&mut list, self.list.as_slice());
        list.insert(at, k);
        Places { list }
    }

    /// These positions, and then others.
    pub fn joined(&self, later: &Places) -> Places
        requires { length self.now + length later.now ≤ 8 }
        ensures { result ≡ self.now ++ later.now }
    {
        let mut list = ArrayVec::new();
        push_all(&mut list, self.list.as_slice());
        push_all(&mut list, later.list.as_slice());
        Places { list }
    }
}
