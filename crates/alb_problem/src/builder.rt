ghost use Rattle.std.specs.Prelude.{◌≡◌, ◌+◌, ◌≤◌, ◌++◌, [], ◌∷◌, None, IfOk, IfErr, OnOk, OnErr, MatchResult, length};
ghost use Rattle.alb_poly.specs.Poly.{AreResidues};
ghost use Rattle.alb_problem.specs.Builder.{letters, counts, IsKeptIdentity, linear_form, field_refusal, generators_refusal, identity_refusal, finish_refusal, fault_refusal, of_identity, StatementAnswers, AnswersOrNoMemory, TellsRefusal};
ghost use Rattle.alb_poly.specs.Consequence.{form, forms};
ghost use Rattle.alb_poly.specs.Instance.{AreHomogeneous, AreSameForms, linearizations};
ghost use Rattle.alb_linear.specs.Identity.{identity_fault, linear_count, IsIdentity};
ghost use Rattle.alb_problem.specs.Problem.{problem, identities_of, IsAccepted};
ghost use Rattle.alb_problem.specs.Matches.{MatchesTextbook};

use crate::generators::generators;
use crate::{Problem, ProblemError};
use alb_lex::Token;
use alb_linear::{Identity, IdentityError, linearize};
use alb_mono::{Letters, Multi, NoMemory};
use alb_poly::{Linear, Poly, Rules};
use gf_field::Field;
use std::alloc::Global;
use std::marker::Model;

/// The greatest number of identities.
const MOST_IDENTITIES: usize = 32;

/// A problem that is being stated. Contracts see the number of elements of the field, the letters and counts of the
/// generators, none before they are named, and the polynomials of the identities.
#[derive(Drop)]
pub struct ProblemBuilder {
    alloc: Global,
    field: Field,
    letters: Letters,
    target: Multi,
    linears: Vec<Linear>,
    identities: Vec<Identity>,
}

impl Model for ProblemBuilder {
    ghost use Rattle.std.specs.Prelude.{◌≡◌, map};
    ghost use Rattle.alb_mono.specs.Listing.{Each};
    ghost use Rattle.alb_poly.specs.Consequence.{form};
    ghost use Rattle.alb_linear.specs.Identity.{IsIdentity};
    ghost use Rattle.alb_problem.specs.Builder.{Builder, builder_code, linear_form, IsSoundBuilder};

    ghost Value = { Builder };

    ghost coded = { builder_code };

    ghost view = { λ b. record { field = b.field; letters = b.letters; counts = b.target; identities = map (λ f. f.poly) b.identities.items } };

    ghost invariant = { λ b. IsSoundBuilder (record { field = b.field; letters = b.letters; counts = b.target; identities = map (λ f. f.poly) b.identities.items })
        × Each IsIdentity b.identities.items
        × (map form b.linears.items ≡ map (λ f. linear_form b.field f.poly) b.identities.items) };
}

/// A problem that is not accepted: the builder as it was, and why.
#[derive(Drop)]
pub struct FinishError {
    /// The builder, unchanged.
    pub builder: ProblemBuilder,
    /// Why the problem is not accepted.
    pub error: ProblemError,
}

// The field of 251 elements.
fn field_251() -> Field
    ensures { result ≡ 251 }
{
    match Field::of(251) {
        Ok(field) => field,
        Err(_) => unreachable!(),
    }
}

impl ProblemBuilder {
    /// The field of 251 elements, no generators and no identities.
    pub fn new(alloc: Global) -> ProblemBuilder
        ensures { result ≡ record { field = 251; letters = []; counts = []; identities = [] } }
    {
        ProblemBuilder {
            alloc,
            field: field_251(),
            letters: Letters::of(&[]),
            target: Multi::of(&[]),
            linears: Vec::new(alloc),
            identities: Vec::new(alloc),
        }
    }

    /// The field.
    pub fn field(&self) -> &Field
        ensures { result.now ≡ self.now.field }
    {
        &self.field
    }

    /// Names the field by its number of elements.
    ///
    /// # Errors
    /// `FieldAfterIdentity` where there is an identity; else `NotInTable` where the number is not in the table of fields.
    /// The builder is then unchanged.
    pub fn set_field(&mut self, p: u64) -> Result<(), ProblemError>
        ensures exact { StatementAnswers result (field_refusal self.old p) }
        ensures named { OnOk result (self.new ≡ record { field = p; letters = self.old.letters; counts = self.old.counts; identities = self.old.identities }) }
        ensures unchanged { OnErr result (self.new ≡ self.old) }
    {
        if !self.identities.is_empty() {
            return Err(ProblemError::FieldAfterIdentity);
        }
        match Field::of(p) {
            Ok(field) => {
                self.field = field;
                Ok(())
            }
            Err(_) => Err(ProblemError::NotInTable),
        }
    }

    /// Names the generators: pairs of a count and a letter, as `2a1b`. `end` is the place after the last token.
    ///
    /// # Errors
    /// `GeneratorsTwice` where they are named already; else `BadGenerators` at the first token that is no count from 1 on
    /// or no letter in its turn, with which the total passes 12, or whose letter stood before, or at the end where there
    /// is no pair or the last letter is missing. The builder is then unchanged.
    pub fn set_generators(&mut self, tokens: &[Token], end: u32) -> Result<(), ProblemError>
        ensures exact { StatementAnswers result (generators_refusal self.old tokens.now end) }
        ensures named { OnOk result (self.new ≡ record { field = self.old.field; letters = letters tokens.now; counts = counts tokens.now; identities = self.old.identities }) }
        ensures unchanged { OnErr result (self.new ≡ self.old) }
    {
        if self.letters.len() > 0 {
            return Err(ProblemError::GeneratorsTwice);
        }
        match generators(tokens, end) {
            Ok((letters, target)) => {
                self.letters = letters;
                self.target = target;
                Ok(())
            }
            Err(place) => Err(ProblemError::BadGenerators { place }),
        }
    }

    /// Adds an identity, and gives its number, from 1 on.
    ///
    /// # Errors
    /// `TooManyIdentities` where there are 32; else `Identity` where the polynomial is no identity, or its linearization
    /// has more than 100,000 terms; `NoMemory`. The builder is then unchanged.
    pub fn add_identity(&mut self, poly: Poly) -> Result<u32, ProblemError>
        requires residues { AreResidues self.old.field poly }
        requires few { length poly ≤ 65536 }
        ensures exact { AnswersOrNoMemory result (identity_refusal self.old poly) }
        ensures number { IfOk result (λ n. n ≡ length self.old.identities + 1) }
        ensures added { OnOk result (self.new ≡ record { field = self.old.field; letters = self.old.letters; counts = self.old.counts; identities = self.old.identities ++ poly ∷ [] }) }
        ensures unchanged { OnErr result (self.new ≡ self.old) }
    {
        if self.identities.len() >= MOST_IDENTITIES {
            return Err(ProblemError::TooManyIdentities);
        }
        let (identity, linear) = read_identity(self.alloc, &self.field, poly)?;
        push_both(&mut self.identities, &mut self.linears, identity, linear)?;
        Ok(self.identities.len() as u32)
    }

    /// The problem, which takes what the builder holds. Its rules stand for its identities: for polynomials within the
    /// target, what follows from the rules, by instances at monomials, is exactly what follows from the identities in the
    /// textbook's sense, by values at any polynomials.
    ///
    /// # Errors
    /// `NoGenerators` where none are named; else `FieldTooSmall` where the number of elements of the field is not above
    /// the total degree. The error has the builder, unchanged.
    pub fn finish(self) -> Result<Problem, FinishError>
        ensures exact { MatchResult result (λ _. finish_refusal self ≡ None) (λ e. TellsRefusal e.error (finish_refusal self)) }
        ensures whole { IfOk result (λ q. problem q ≡ self) }
        ensures accepted { IfOk result (λ q. IsAccepted q) }
        ensures homogeneous { IfOk result (λ q. AreHomogeneous (identities_of q)) }
        ensures stands { IfOk result (λ q. AreSameForms q.rules.field (forms q.rules) (linearizations (identities_of q))) }
        ensures textbook { IfOk result (λ q. MatchesTextbook q.rules.field q.rules.target (forms q.rules) (identities_of q)) }
        ensures unchanged { IfErr result (λ e. e.builder ≡ self) }
    {
        if self.letters.len() == 0 {
            return Err(FinishError {
                builder: self,
                error: ProblemError::NoGenerators,
            });
        }
        if self.field.p() <= u64::from(self.target.degree()) {
            return Err(FinishError {
                builder: self,
                error: ProblemError::FieldTooSmall,
            });
        }
        Ok(Problem {
            rules: Rules {
                field: self.field,
                target: self.target,
                linears: self.linears,
            },
            letters: self.letters,
            identities: self.identities,
        })
    }
}

// Adds an identity to a list, and its linearization to another one: both or none.
fn push_both(
    identities: &mut Vec<Identity>,
    linears: &mut Vec<Linear>,
    identity: Identity,
    linear: Linear,
) -> Result<(), NoMemory>
    ensures identities { OnOk result (identities.new.items ≡ identities.old.items ++ identity ∷ []) }
    ensures linears { OnOk result (linears.new.items ≡ linears.old.items ++ linear ∷ []) }
    ensures unchanged { OnErr result ((identities.new.items ≡ identities.old.items) × (linears.new.items ≡ linears.old.items)) }
{
    identities.push(identity)?;
    match linears.push(linear) {
        Ok(()) => Ok(()),
        Err(_) => {
            let _ = identities.pop();
            Err(NoMemory)
        }
    }
}

// The error of an identity as that of a problem.
fn identity_error(error: IdentityError) -> ProblemError
    ensures { result ≡ of_identity error }
{
    match error {
        IdentityError::NoMemory => ProblemError::NoMemory,
        error => ProblemError::Identity(error),
    }
}

// The identity of a polynomial and its linearization.
fn read_identity(
    alloc: Global,
    field: &Field,
    poly: Poly,
) -> Result<(Identity, Linear), ProblemError>
    requires residues { AreResidues field.now poly }
    requires few { length poly ≤ 65536 }
    ensures exact { AnswersOrNoMemory result (fault_refusal (identity_fault poly) (linear_count poly)) }
    ensures read { IfOk result (λ q. IsIdentity q.0 × (q.0.poly ≡ poly) × (form q.1 ≡ linear_form field.now poly) × IsKeptIdentity field.now poly) }
{
    let identity = match Identity::of(poly) {
        Ok(identity) => identity,
        Err(error) => return Err(identity_error(error)),
    };
    // Its letters are a to z: what is kept is homogeneous in these.
    let _known = identity.poly.terms();
    match linearize(alloc, field, &identity) {
        Ok(linear) => Ok((identity, linear)),
        Err(error) => Err(identity_error(error)),
    }
}
