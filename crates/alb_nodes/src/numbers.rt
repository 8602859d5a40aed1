ghost use Rattle.std.specs.Prelude.{◌≡◌, [], ◌+◌, ◌<◌, ◌≤◌, ℕ, IsTrue, IfOk, OnOk, All, length, map};
ghost use Rattle.alb_mono.specs.Tree.{tree, leaf, node, degree, count, are_below};
ghost use Rattle.alb_poly.specs.Instance.{fill};
ghost use Rattle.alb_nodes.specs.Nodes.{at, made, is_after, IsNumber, Extends, AreDifferent};

use crate::Node;
use alb_mono::{Mono, NoMemory};
use indexmap::IndexSet;
use std::alloc::Global;
use std::marker::Model;

/// Monomials with their numbers, from 0 on. Contracts see the list of the monomials, each at its number.
#[derive(Drop)]
pub struct Numbers {
    nodes: IndexSet<Node>,
}

impl Model for Numbers {
    ghost use Rattle.std.specs.Prelude.{List, IsTrue, []};
    ghost use Rattle.alb_mono.specs.Tree.{Tree};
    ghost use Rattle.alb_mono.specs.TreeCode.{tree_code};
    ghost use Rattle.std.specs.Coded.{coded_list};
    ghost use Rattle.alb_nodes.specs.Nodes.{made_all, are_after};

    ghost Value = { List Tree };

    ghost coded = { coded_list tree_code };

    ghost view = { λ s. made_all [] s.nodes.keys };

    ghost invariant = { λ s. IsTrue (are_after 0 s.nodes.keys) };
}

impl Numbers {
    /// No monomial has a number yet.
    pub fn new(alloc: Global) -> Numbers
        ensures { result ≡ [] }
    {
        Numbers {
            nodes: IndexSet::new(alloc),
        }
    }

    /// How many monomials have numbers.
    pub fn len(&self) -> usize
        ensures value { result ≡ length self.now }
        ensures different { AreDifferent self.now }
    {
        self.nodes.len()
    }

    // The number of the monomial that the node makes.
    fn number_of(&mut self, entry: Node) -> Result<usize, NoMemory>
        requires { IsTrue (is_after (length self.old) entry) }
        ensures number { IfOk result (λ k. IsNumber self.new k (made self.old entry)) }
        ensures kept { OnOk result (Extends self.old self.new) }
    {
        let (place, _) = self.nodes.insert_full(entry)?;
        Ok(place)
    }

    /// The number of a generator.
    pub fn letter(&mut self, g: u8) -> Result<usize, NoMemory>
        ensures number { IfOk result (λ k. IsNumber self.new k (leaf g)) }
        ensures kept { OnOk result (Extends self.old self.new) }
    {
        self.number_of(Node::Letter(g))
    }

    /// The number of a product.
    pub fn product(&mut self, left: usize, right: usize) -> Result<usize, NoMemory>
        requires left { left < length self.old }
        requires right { right < length self.old }
        ensures number { IfOk result (λ k. IsNumber self.new k (node (at self.old left) (at self.old right))) }
        ensures kept { OnOk result (Extends self.old self.new) }
    {
        self.number_of(Node::Product(left, right))
    }

    /// The number of a monomial.
    pub fn number(&mut self, m: &Mono) -> Result<usize, NoMemory>
        ensures number { IfOk result (λ k. IsNumber self.new k (tree m.now)) }
        ensures kept { OnOk result (Extends self.old self.new) }
    {
        match m {
            Mono::Gen(g) => self.letter(*g),
            Mono::Prod(left, right) => {
                let left = self.number(left)?;
                let right = self.number(right)?;
                self.product(left, right)
            }
        }
    }

    /// The number of a monomial whose positions are replaced by monomials with these numbers.
    pub fn filled(&mut self, m: &Mono, numbers: &[usize]) -> Result<usize, NoMemory>
        requires positions { IsTrue (are_below (length numbers.now) (tree m.now)) }
        requires within { All (λ k. k < length self.old) numbers.now }
        ensures number { IfOk result (λ k. IsNumber self.new k (fill (map (at self.old) numbers.now) (tree m.now))) }
        ensures kept { OnOk result (Extends self.old self.new) }
    {
        match m {
            Mono::Gen(k) => Ok(numbers[*k as usize]),
            Mono::Prod(left, right) => {
                let left = self.filled(left, numbers)?;
                let right = self.filled(right, numbers)?;
                self.product(left, right)
            }
        }
    }

    // The node of a number.
    fn node(&self, k: usize) -> Node
        requires { k < length self.now }
        ensures made { at self.now k ≡ made self.now result }
        ensures after { IsTrue (is_after k result) }
    {
        *self.nodes.get_index(k).unwrap()
    }

    /// The monomial of a number, in memory of its own.
    pub fn mono(&self, alloc: Global, k: usize) -> Result<Mono, NoMemory>
        requires { k < length self.now }
        ensures { IfOk result (λ m. tree m ≡ at self.now k) }
    {
        match self.node(k) {
            Node::Letter(g) => Ok(Mono::Gen(g)),
            Node::Product(a, b) => {
                let left = self.mono(alloc, a)?;
                let right = self.mono(alloc, b)?;
                Mono::product(alloc, left, right)
            }
        }
    }

    /// How often a generator occurs in the monomial of a number.
    pub fn occurrences(&self, k: usize, g: u8) -> u64
        requires within { k < length self.now }
        requires small { degree (at self.now k) ≤ 64 }
        ensures value { result ≡ count g (at self.now k) }
        ensures bound { result ≤ degree (at self.now k) }
    {
        match self.node(k) {
            Node::Letter(h) => u64::from(h == g),
            Node::Product(a, b) => self.occurrences(a, g) + self.occurrences(b, g),
        }
    }
}
