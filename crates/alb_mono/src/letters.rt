ghost use Rattle.std.specs.Prelude.{◌≡◌, ◌==◌, ◌≤◌, ◌<◌, ◌≢◌, All, AllPairs, length, position, slice_index, IfSome};
ghost use Rattle.alb_mono.specs.Tree.{AreLetters, alphabet};

use arrayvec::ArrayVec;
use std::marker::Model;

/// Different letters a to z; a generator's letter stands at the generator's number.
#[derive(Drop)]
pub struct Letters {
    list: ArrayVec<u8, 26>,
}

impl Model for Letters {
    ghost use Rattle.std.specs.Prelude.{List, ℕ};
    ghost use Rattle.alb_mono.specs.Tree.{AreLetters};

    ghost Value = { List ℕ };

    ghost view = { λ t. t.list.items };

    ghost invariant = { λ t. AreLetters t.list.items };
}

// The place of a letter.
fn place_of(list: &[u8], letter: u8) -> Option<usize>
    ensures value { result ≡ position (λ x. x == letter) list.now }
    ensures bound { IfSome result (λ k. k < length list.now) }
{
    list.iter().position(|x| *x == letter)
}

impl Letters {
    /// The letters a to z in order.
    pub fn all() -> Letters
        ensures { result ≡ alphabet }
    {
        let mut list = ArrayVec::new();
        for k in 0..26 {
            list.push(b'a' + k);
        }
        Letters { list }
    }

    /// The given letters, in this order. They are letters a to z, and no two are equal.
    pub fn of(list: &[u8]) -> Letters
        requires letters { All (λ x. (97 ≤ x) × (x ≤ 122)) list.now }
        requires different { AllPairs (λ x y. x ≢ y) list.now }
        ensures { result ≡ list.now }
    {
        let mut copied = ArrayVec::new();
        for letter in list {
            copied.push(*letter);
        }
        Letters { list: copied }
    }

    /// The letters, by the numbers of their generators.
    pub fn list(&self) -> &[u8]
        ensures value { result.now ≡ self.now }
        ensures few { length result.now ≤ 26 }
        ensures letters { AreLetters result.now }
    {
        self.list.as_slice()
    }

    /// How many letters there are.
    pub fn len(&self) -> usize
        ensures { result ≡ length self.now }
    {
        self.list.len()
    }

    /// The letter of a generator, whose number is below the count of the letters.
    pub fn letter(&self, k: u8) -> u8
        requires { k < length self.now }
        ensures { result ≡ slice_index self.now k }
    {
        self.list()[k as usize]
    }

    /// The number of a letter's generator, or `None` exactly where the letter is not in the list.
    pub fn number(&self, letter: u8) -> Option<u8>
        ensures value { result ≡ position (λ x. x == letter) self.now }
        ensures small { IfSome result (λ k. k < 26) }
    {
        match place_of(self.list(), letter) {
            Some(k) => Some(k as u8),
            None => None,
        }
    }
}
