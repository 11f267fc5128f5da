// The changes that a propagator waits for.
ghost use Rattle.std.specs.Prelude.{◌≡◌, [], ◌++◌, OnOk, OnErr};
ghost use Rattle.fzn_propagator.specs.Subscriptions.{waits, waits_each, waits_some};

use crate::event::Event;
use fzn_domain::{Memory, VarId};
use fzn_values::Term;
use std::alloc::Global;
use std::marker::Model;

/// That a propagator waits for such changes of a variable.
#[derive(Clone, Copy, Debug)]
pub struct Subscription {
    /// The variable that is waited for.
    pub variable: VarId,
    /// Which of its changes.
    pub event: Event,
}

/// Those of one propagator, in the order in which they were made. One variable may have several.
#[derive(Debug, Drop)]
pub struct Subscriptions {
    list: Vec<Subscription>,
}

impl Model for Subscriptions {
    ghost use Rattle.std.specs.Prelude.{List};
    ghost use Rattle.fzn_propagator.specs.declared.subscriptions.Subscription.{Subscription};

    ghost Value = { List Subscription };

    ghost view = { λ it. it.list.items };
}

impl Subscriptions {
    /// To no variable.
    pub fn new(alloc: Global) -> Subscriptions
        ensures { result ≡ [] }
    {
        Subscriptions {
            list: Vec::new(alloc),
        }
    }

    /// Subscribes to the term, where it is a variable. `Err` where memory runs out.
    pub fn add(&mut self, term: Term, event: Event) -> Result<(), Memory>
        ensures ok { OnOk result (self.new ≡ self.old ++ waits event term) }
        ensures err { OnErr result (self.new ≡ self.old) }
    {
        let Term::Variable(variable) = term else {
            return Ok(());
        };
        self.list.push(Subscription { variable, event })?;
        Ok(())
    }

    /// Subscribes to each of the terms. `Err` where memory runs out.
    pub fn add_each(&mut self, terms: &[Term], event: Event) -> Result<(), Memory>
        ensures { OnOk result (self.new ≡ self.old ++ waits_each event terms.now) }
    {
        for term in terms {
            self.add(*term, event)?;
        }
        Ok(())
    }

    /// Subscribes to the term, where there is one. `Err` where memory runs out.
    pub fn add_some(&mut self, term: Option<Term>, event: Event) -> Result<(), Memory>
        ensures { OnOk result (self.new ≡ self.old ++ waits_some event term) }
    {
        match term {
            Some(term) => self.add(term, event),
            None => Ok(()),
        }
    }

    /// The subscriptions in order.
    pub fn as_slice(&self) -> &[Subscription]
        ensures { result.now ≡ self.now }
    {
        self.list.as_slice()
    }
}
