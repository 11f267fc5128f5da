// Which values of variables a clause bars already.
ghost use Rattle.std.specs.Prelude.{length, IsTrue};
ghost use Rattle.fzn_values.specs.Term.{IsTerm};
ghost use Rattle.fzn_levels.specs.Levels.{IsToldOut};

use fzn_domain::{Lit, Memory, Op, VarId};
use fzn_list::Items;
use fzn_trail::Trail;
use fzn_values::Term;
use std::alloc::Global;
use std::collections::HashMap;

/// A value of a variable.
#[derive(Clone, Copy, Debug, PartialEq, Eq, Hash, Drop)]
struct Barred {
    /// The number of the variable, counted from 1.
    var: usize,
    value: i64,
}

/// Where the literals of a clause are that grows. No contract rests on it: each literal that is found so is looked at again.
#[derive(Drop)]
pub(crate) struct Told {
    /// How many of them are noted.
    seen: usize,
    /// The index of one that is true at this value of the variable alone.
    values: HashMap<Barred, usize>,
    /// By the number of a variable: the index of the last one that is true of it up to a bound.
    below: HashMap<usize, usize>,
    /// That of the last one that is true of it from a bound on.
    above: HashMap<usize, usize>,
}

impl Told {
    /// No literal is noted yet.
    pub(crate) fn new(alloc: Global) -> Told {
        Told {
            seen: 0,
            values: HashMap::new(alloc),
            below: HashMap::new(alloc),
            above: HashMap::new(alloc),
        }
    }

    /// Notes the literals by which the clause has grown since the last time. `Err` where memory runs out.
    pub(crate) fn read(&mut self, clause: &[Lit]) -> Result<(), Memory> {
        for at in self.seen..clause.len() {
            self.note(clause[at], at)?;
        }
        self.seen = clause.len();
        Ok(())
    }

    fn note(&mut self, lit: Lit, at: usize) -> Result<(), Memory> {
        let var = lit.var.0;
        match lit.op {
            Op::Equal => {
                let value = lit.value;
                self.values.insert(Barred { var, value }, at)?;
            }
            Op::AtMost => {
                self.below.insert(var, at)?;
            }
            Op::AtLeast => {
                self.above.insert(var, at)?;
            }
            Op::NotEqual => {}
        }
        Ok(())
    }

    /// Whether some literal of the clause is true where the variable has the value.
    pub(crate) fn is_barred(&self, clause: &Items<Lit>, var: VarId, value: &i64) -> bool
        ensures { IsTrue result → IsToldOut clause.now var value.now }
    {
        let barred = Barred {
            var: var.0,
            value: *value,
        };
        is_true_at(clause, self.values.get(&barred).copied(), var, value)
            || is_true_at(clause, self.below.get(&var.0).copied(), var, value)
            || is_true_at(clause, self.above.get(&var.0).copied(), var, value)
    }

    /// Whether nothing has to be added to the clause to say that the term has not the value.
    pub(crate) fn is_said(
        &self,
        trail: &Trail,
        clause: &Items<Lit>,
        term: Term,
        value: &i64,
    ) -> bool
        requires { IsTerm (length trail.now.declared) term }
    {
        match term {
            Term::Constant(_) => true,
            Term::Variable(var) => {
                !trail.declared(var).contains(*value) || self.is_barred(clause, var, value)
            }
        }
    }
}

/// Whether the literal of the clause at the index, where there is one, is true where the variable has the value.
fn is_true_at(clause: &Items<Lit>, at: Option<usize>, var: VarId, value: &i64) -> bool
    ensures { IsTrue result → IsToldOut clause.now var value.now }
{
    let Some(at) = at else {
        return false;
    };
    match clause.as_slice().get(at) {
        Some(lit) => lit.var == var && lit.is_true_at(*value),
        None => false,
    }
}
