ghost use Rattle.std.specs.Prelude.{◌≡◌, ◌+◌, ◌<◌, ◌≤◌, ◌↔◌, ◌^◌, ◌-◌, [], ◌∷◌, ◌++◌, IsTrue, All, take, length, sum, true, slice_set, slice_index, replicate};
ghost use Rattle.alb_mono.specs.Tree.{cmp_types, type_le, type_plus, type_minus};

use arrayvec::ArrayVec;
use std::cmp::Ordering;
use std::marker::Model;

/// A type: how often each generator occurs. It has at most 26 counts, each at most 255. Contracts see the list of the counts.
#[derive(Drop)]
pub struct Multi {
    list: ArrayVec<u8, 26>,
}

impl Model for Multi {
    ghost use Rattle.std.specs.Prelude.{List, ℕ};

    ghost Value = { List ℕ };

    ghost view = { λ t. t.list.items };
}

impl Multi {
    /// The type with the given counts.
    pub fn of(counts: &[u8]) -> Multi
        requires { length counts.now ≤ 26 }
        ensures { result ≡ counts.now }
    {
        let mut list = ArrayVec::new();
        for c in counts {
            list.push(*c);
        }
        Multi { list }
    }

    // `gens` counts of 0.
    pub(crate) fn zeros(gens: u8) -> Multi
        requires { gens ≤ 26 }
        ensures { result ≡ replicate gens 0 }
    {
        let mut list = ArrayVec::new();
        for _i in 0..gens {
            list.push(0);
        }
        Multi { list }
    }

    /// The counts, by the numbers of the generators.
    pub fn counts(&self) -> &[u8]
        ensures value { result.now ≡ self.now }
        ensures few { length result.now ≤ 26 }
    {
        self.list.as_slice()
    }

    /// The sum of the counts.
    pub fn degree(&self) -> u32
        ensures { result ≡ sum self.now }
    {
        self.list.as_slice().iter().map(|c| *c as u32).sum()
    }

    /// Whether each count is at most that of the other type, which is as long.
    pub fn le(&self, other: &Multi) -> bool
        requires { length self.now ≡ length other.now }
        ensures { result ≡ type_le self.now other.now }
    {
        self.list
            .as_slice()
            .iter()
            .zip(other.list.as_slice())
            .all(|(a, b)| *a <= *b)
    }

    /// The order of types of one length: the smaller degree comes first, and at equal degree the larger count at the first
    /// difference.
    pub fn cmp_type(&self, other: &Multi) -> Ordering
        requires { length self.now ≡ length other.now }
        ensures { result ≡ cmp_types self.now other.now }
    {
        match self.degree().cmp(&other.degree()) {
            Ordering::Equal => {}
            order => return order,
        }
        other.list.as_slice().cmp(self.list.as_slice())
    }

    // Adds a count at the end.
    pub(crate) fn push_count(&mut self, c: u8)
        requires { length self.old < 26 }
        ensures { self.new ≡ self.old ++ c ∷ [] }
    {
        self.list.push(c);
    }

    // Takes the last count away.
    pub(crate) fn pop_count(&mut self)
        requires { 0 < length self.old }
        ensures { self.new ≡ take (length self.old - 1) self.old }
    {
        let _ = self.list.pop();
    }

    /// Whether the two are one type.
    pub fn is_same(&self, other: &Multi) -> bool
        ensures { IsTrue result ↔ (self.now ≡ other.now) }
    {
        self.list.as_slice() == other.list.as_slice()
    }

    /// The difference in every count, where the types are of one length and no count falls below 0.
    pub fn minus(&self, other: &Multi) -> Multi
        requires long { length self.now ≡ length other.now }
        requires within { type_le other.now self.now ≡ true }
        ensures { result ≡ type_minus self.now other.now }
    {
        let mut list = ArrayVec::new();
        let xs = self.list.as_slice();
        let ys = other.list.as_slice();
        for i in 0..xs.len() {
            list.push(xs[i] - ys[i]);
        }
        Multi { list }
    }

    /// The sum in every count, where the types are of one length and no count passes 255.
    pub fn plus(&self, other: &Multi) -> Multi
        requires long { length self.now ≡ length other.now }
        requires room { All (λ c. c ≤ 255) (type_plus self.now other.now) }
        ensures { result ≡ type_plus self.now other.now }
    {
        let mut list = ArrayVec::new();
        let xs = self.list.as_slice();
        let ys = other.list.as_slice();
        for i in 0..xs.len() {
            list.push(xs[i] + ys[i]);
        }
        Multi { list }
    }

    // Adds one to a count.
    pub(crate) fn count_more(&mut self, g: u8)
        requires place { g < length self.old }
        requires room { slice_index self.old g < 255 }
        ensures { self.new ≡ slice_set self.old g (slice_index self.old g + 1) }
    {
        let c = self.list.as_mut_slice();
        c[g as usize] += 1;
    }
}
