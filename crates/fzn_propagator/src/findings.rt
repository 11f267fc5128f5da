// What propagators hand over.
ghost use Rattle.std.specs.Prelude.{◌≡◌, ◌≢◌, [], ◌∷◌, ◌++◌, OnOk, OnErr, MatchBool, IfSome, IfNone};
ghost use Rattle.fzn_meaning.specs.declared.constraint.Constraint.{Constraint};
ghost use Rattle.fzn_trail.specs.Levels.{Levels};
ghost use Rattle.fzn_propagator.specs.Clause.{IsJustified};
ghost use Rattle.fzn_propagator.specs.Inference.{HasWritableHints, AreFoundOf};

use fzn_cert::Inference;
use fzn_domain::{Lit, Memory};
use fzn_list::Items;
use fzn_rules::Rule;
use std::alloc::{AllocError, Global};
use std::collections::VecDeque;
use std::marker::Model;

/// The inferences of a pass, in the order in which they were found. The room for them is kept from one pass to the next.
#[derive(Drop)]
pub struct Findings {
    list: VecDeque<Inference>,
}

impl Model for Findings {
    ghost use Rattle.std.specs.Prelude.{List};
    ghost use Rattle.fzn_cert.specs.declared.step.Inference.{Inference};

    ghost Value = { List Inference };

    ghost view = { λ it. it.list.items };
}

impl Findings {
    /// No inference.
    pub fn new(alloc: Global) -> Findings
        ensures { result ≡ [] }
    {
        Findings {
            list: VecDeque::new(alloc),
        }
    }

    /// Puts one behind the others. It answers `Err` where memory runs out, and the list is as before.
    pub fn push(&mut self, inference: Inference) -> Result<(), AllocError>
        ensures ok { OnOk result (self.new ≡ self.old ++ inference ∷ []) }
        ensures err { OnErr result (self.new ≡ self.old) }
    {
        self.list.push_back(inference)?;
        Ok(())
    }

    /// Puts the clause, where there is one, behind the others: as what the rule has from the constraint of this number. `Err` where memory
    /// runs out.
    pub fn hand_over(
        &mut self,
        number: u64,
        rule: Rule,
        clause: Option<Items<Lit>>,
    ) -> Result<(), Memory>
        requires hints { HasWritableHints rule }
        ensures found { (trail : Levels) (constraint : Constraint) → IfSome clause (IsJustified trail constraint rule) → AreFoundOf number constraint trail self.old → AreFoundOf number constraint trail self.new }
        ensures some { IfSome clause (λ _. OnOk result (self.new ≢ [])) }
        ensures kept { self.new ≡ [] → self.old ≡ [] }
    {
        let Some(clause) = clause else {
            return Ok(());
        };
        self.push(Inference {
            constraint: number,
            rule,
            clause,
        })?;
        Ok(())
    }

    /// Takes out the one that was found first, where there is one.
    pub fn take_first(&mut self) -> Option<Inference>
        ensures some { IfSome result (λ first. self.old ≡ first ∷ self.new) }
        ensures none { IfNone result ((self.old ≡ []) × (self.new ≡ [])) }
    {
        self.list.pop_front()
    }

    /// Whether there is none.
    pub fn is_empty(&self) -> bool
        ensures { MatchBool result (self.now ≡ []) (self.now ≢ []) }
    {
        self.list.is_empty()
    }

    /// How many there are.
    pub fn len(&self) -> usize {
        self.list.len()
    }

    /// Drops every one.
    pub fn clear(&mut self)
        ensures { self.new ≡ [] }
    {
        self.list.clear();
    }
}
