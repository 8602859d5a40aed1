ghost use Rattle.std.specs.Prelude.{◌≡◌, ◌+◌, ◌<◌, ◌≤◌, IsTrue, IfOk, slice_get, slice_index, length, ℕ};
ghost use Rattle.alb_mono.specs.Tree.{degree, node, leaf, leaf_list, cmp_monos, cmp_trees, cmp_types, same_tree, type_of, type_plus, are_below, tree};

use crate::{Multi, NoMemory};
use std::alloc::Global;
use std::cmp::Ordering;

/// A nonassociative monomial (a nonassociative word with its brackets): a generator, or a product of two monomials.
/// Contracts see it as a `Tree`. See Zhevlakov, Slinko, Shestakov and Shirshov, *Rings That Are Nearly Associative*, chapter 1.
#[derive(Drop)]
pub enum Mono {
    /// A generator, by its number.
    Gen(u8),
    /// The product of a left and a right factor.
    Prod(Box<Mono>, Box<Mono>),
}

impl Mono {
    /// The product of two monomials.
    pub fn product(alloc: Global, left: Mono, right: Mono) -> Result<Mono, NoMemory>
        ensures { IfOk result (λ m. tree m ≡ node (tree left) (tree right)) }
    {
        let left = Box::new(alloc, left)?;
        let right = Box::new(alloc, right)?;
        Ok(Mono::Prod(left, right))
    }

    /// The same monomial in memory of its own.
    pub fn try_copy(&self, alloc: Global) -> Result<Mono, NoMemory>
        ensures { IfOk result (λ m. tree m ≡ tree self.now) }
    {
        match self {
            Mono::Gen(k) => Ok(Mono::Gen(*k)),
            Mono::Prod(left, right) => {
                let left = left.try_copy(alloc)?;
                let right = right.try_copy(alloc)?;
                Mono::product(alloc, left, right)
            }
        }
    }

    /// The number of leaves, for a monomial of degree at most 64.
    pub fn degree(&self) -> u32
        requires { degree (tree self.now) ≤ 64 }
        ensures { result ≡ degree (tree self.now) }
    {
        match self {
            Mono::Gen(_) => 1,
            Mono::Prod(left, right) => left.degree() + right.degree(),
        }
    }

    /// The generator at the `k`-th leaf from the left, counted from 0, or `None` exactly where `k` is not below the degree.
    pub fn leaf_at(&self, k: u32) -> Option<u8>
        requires { degree (tree self.now) ≤ 64 }
        ensures { result ≡ slice_get (leaf_list (tree self.now)) k }
    {
        match self {
            Mono::Gen(g) => { if k == 0 { Some(*g) } else { None } }
            Mono::Prod(left, right) => {
                let before = left.degree();
                if k < before {
                    left.leaf_at(k)
                } else {
                    right.leaf_at(k - before)
                }
            }
        }
    }

    /// How often each of the first `gens` generators occurs, for a monomial of degree at most 64 over these generators.
    pub fn type_of(&self, gens: u8) -> Multi
        requires few { gens ≤ 26 }
        requires small { degree (tree self.now) ≤ 64 }
        requires known { IsTrue (are_below gens (tree self.now)) }
        ensures { result ≡ type_of gens (tree self.now) }
    {
        let mut counts = Multi::zeros(gens);
        self.count_into(&mut counts);
        counts
    }

    // Adds the numbers of the generators' leaves.
    fn count_into(&self, counts: &mut Multi)
        requires known { IsTrue (are_below (length counts.old) (tree self.now)) }
        requires room { (g : ℕ) → slice_index counts.old g + degree (tree self.now) ≤ 255 }
        ensures value { counts.new ≡ type_plus counts.old (type_of (length counts.old) (tree self.now)) }
        ensures len { length counts.new ≡ length counts.old }
        ensures bound { (g : ℕ) → slice_index counts.new g ≤ slice_index counts.old g + degree (tree self.now) }
    {
        match self {
            Mono::Gen(g) => counts.count_more(*g),
            Mono::Prod(left, right) => {
                left.count_into(counts);
                right.count_into(counts);
            }
        }
    }

    // The order of the types of two monomials. Where the degrees differ, nothing is counted.
    fn cmp_their_types(&self, other: &Mono) -> Ordering
        requires small { degree (tree self.now) ≤ 64 }
        requires other_small { degree (tree other.now) ≤ 64 }
        requires letters { IsTrue (are_below 26 (tree self.now)) }
        requires other_letters { IsTrue (are_below 26 (tree other.now)) }
        ensures { result ≡ cmp_types (type_of 26 (tree self.now)) (type_of 26 (tree other.now)) }
    {
        match self.degree().cmp(&other.degree()) {
            Ordering::Equal => self.type_of(26).cmp_type(&other.type_of(26)),
            order => order,
        }
    }

    /// The order of the monomials of one type: products go by the types of their left factors, then by the left factors,
    /// then by the right ones.
    pub fn cmp_same_type(&self, other: &Mono) -> Ordering
        requires small { degree (tree self.now) ≤ 64 }
        requires other_small { degree (tree other.now) ≤ 64 }
        requires letters { IsTrue (are_below 26 (tree self.now)) }
        requires other_letters { IsTrue (are_below 26 (tree other.now)) }
        ensures { result ≡ cmp_trees (tree self.now) (tree other.now) }
    {
        match (self, other) {
            (Mono::Gen(a), Mono::Gen(b)) => a.cmp(b),
            (Mono::Gen(_), Mono::Prod(_, _)) => Ordering::Less,
            (Mono::Prod(_, _), Mono::Gen(_)) => Ordering::Greater,
            (Mono::Prod(l, r), Mono::Prod(m, s)) => {
                if l.is_same(m) {
                    return r.cmp_same_type(s);
                }
                match l.cmp_their_types(m) {
                    Ordering::Equal => match l.cmp_same_type(m) {
                        Ordering::Equal => r.cmp_same_type(s),
                        order => order,
                    },
                    order => order,
                }
            }
        }
    }

    /// The order of all monomials of degree at most 64 over 26 generators: by degree, then by type, then as `cmp_same_type`.
    pub fn compare(&self, other: &Mono) -> Ordering
        requires small { degree (tree self.now) ≤ 64 }
        requires other_small { degree (tree other.now) ≤ 64 }
        requires letters { IsTrue (are_below 26 (tree self.now)) }
        requires other_letters { IsTrue (are_below 26 (tree other.now)) }
        ensures { result ≡ cmp_monos (tree self.now) (tree other.now) }
    {
        if self.is_same(other) {
            return Ordering::Equal;
        }
        match self.cmp_their_types(other) {
            Ordering::Equal => self.cmp_same_type(other),
            order => order,
        }
    }

    /// Whether the two are one monomial.
    pub fn is_same(&self, other: &Mono) -> bool
        ensures { result ≡ same_tree (tree self.now) (tree other.now) }
    {
        match (self, other) {
            (Mono::Gen(a), Mono::Gen(b)) => *a == *b,
            (Mono::Prod(l, r), Mono::Prod(m, s)) => l.is_same(m) && r.is_same(s),
            _ => false,
        }
    }
}
