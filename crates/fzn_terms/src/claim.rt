// Claims of terms.
ghost use Rattle.std.specs.Prelude.{◌≡◌, ◌<ℤ◌, ◌≤ℤ◌, ℕ, ℤ, List, IfSome};
ghost use Rattle.fzn_domain.specs.IntSet.{IntSet};
ghost use Rattle.fzn_values.specs.Term.{IsTerm};
ghost use Rattle.fzn_sets.specs.Terms.{MayBe};
ghost use Rattle.fzn_domain.specs.declared.literal.Op.TheVariants.{AtLeast, AtMost, Equal, NotEqual};
ghost use Rattle.fzn_terms.specs.Denied.{claim_turned_round, that, IsDenied};

use fzn_domain::{Lit, Op, VarId};
use fzn_values::Term;

/// That the value of the term stands to the number as the operator says.
#[derive(Clone, Copy, Debug, PartialEq, Eq)]
pub struct Claim {
    /// The constant or variable of which it speaks.
    pub term: Term,
    /// How its value stands to the number.
    pub op: Op,
    /// The number.
    pub number: i64,
}

impl Claim {
    /// That the value is at most the number.
    pub fn at_most(term: Term, number: i64) -> Claim
        ensures { result ≡ that term AtMost number }
    {
        Claim {
            term,
            op: Op::AtMost,
            number,
        }
    }

    /// That the value is at least the number.
    pub fn at_least(term: Term, number: i64) -> Claim
        ensures { result ≡ that term AtLeast number }
    {
        Claim {
            term,
            op: Op::AtLeast,
            number,
        }
    }

    /// That the value is less than the number. The number is not the least of 64 bits.
    pub fn below(term: Term, number: i64) -> Claim
        requires { i64.MIN <ℤ number }
        ensures term { result.term ≡ term }
        ensures denied { (sets : List IntSet) (v : ℤ) → IsDenied sets result → MayBe sets term v → number ≤ℤ v }
    {
        Claim {
            term,
            op: Op::AtMost,
            number: number - 1,
        }
    }

    /// That the value is greater than the number. The number is not the greatest of 64 bits.
    pub fn above(term: Term, number: i64) -> Claim
        requires { number <ℤ i64.MAX }
        ensures term { result.term ≡ term }
        ensures denied { (sets : List IntSet) (v : ℤ) → IsDenied sets result → MayBe sets term v → v ≤ℤ number }
    {
        Claim {
            term,
            op: Op::AtLeast,
            number: number + 1,
        }
    }

    /// That the value is another than the number.
    pub fn other_than(term: Term, number: i64) -> Claim
        ensures value { result ≡ that term NotEqual number }
        ensures term { result.term ≡ term }
        ensures denied { (sets : List IntSet) (v : ℤ) → IsDenied sets result → MayBe sets term v → v ≡ number }
    {
        Claim {
            term,
            op: Op::NotEqual,
            number,
        }
    }

    /// That the value is the number.
    pub fn equal(term: Term, number: i64) -> Claim
        ensures value { result ≡ that term Equal number }
        ensures term { result.term ≡ term }
        ensures denied { (sets : List IntSet) → IsDenied sets result → MayBe sets term number → ⊥ }
    {
        Claim {
            term,
            op: Op::Equal,
            number,
        }
    }

    /// One that is true of no value.
    pub fn never() -> Claim
        ensures { (count : ℕ) → IsTerm count result.term }
    {
        Claim::other_than(Term::Constant(0), 0)
    }

    /// The opposite claim, of another term: one of the two is true where the terms have the same value. Nothing at the ends of `i64`.
    pub fn opposite(self, term: Term) -> Option<Claim>
        ensures { IfSome result (λ claim. claim ≡ claim_turned_round self term) }
    {
        if self.number == i64::MIN || self.number == i64::MAX {
            return None;
        }
        let lit = Lit {
            var: VarId(1),
            op: self.op,
            value: self.number,
        }
        .negated();
        Some(Claim {
            term,
            op: lit.op,
            number: lit.value,
        })
    }
}
