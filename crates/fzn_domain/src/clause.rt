// A clause as it is made.
ghost use Rattle.std.specs.Prelude.{◌≡◌, [], ◌∷◌, ◌++◌, length, IfOk, OnOk, OnErr};

use crate::literal::Lit;
use smallvec::SmallVec;
use std::alloc::{AllocError, Global};
use std::marker::Model;

/// How many literals a clause has that lies in the value itself.
const SHORT: usize = 4;

/// A clause as it is made, which contracts see as the list of its literals. A short one takes no memory of its own.
#[derive(Debug, Drop)]
pub struct Clause {
    lits: SmallVec<Lit, SHORT>,
}

impl Model for Clause {
    ghost use Rattle.std.specs.Prelude.{List};
    ghost use Rattle.fzn_domain.specs.declared.literal.Lit.{Lit};

    ghost Value = { List Lit };

    ghost view = { λ clause. clause.lits.items };
}

impl Clause {
    /// No literal.
    pub fn new(alloc: Global) -> Clause
        ensures { result ≡ [] }
    {
        Clause {
            lits: SmallVec::new(alloc),
        }
    }

    /// No literal, and room for so many. It answers `Err` where memory runs out.
    pub fn with_capacity(alloc: Global, capacity: usize) -> Result<Clause, AllocError>
        ensures { IfOk result (λ clause. clause ≡ []) }
    {
        let lits = SmallVec::with_capacity(alloc, capacity)?;
        Ok(Clause { lits })
    }

    /// These literals in order. It answers `Err` where memory runs out.
    pub fn from_slice(alloc: Global, lits: &[Lit]) -> Result<Clause, AllocError>
        ensures { IfOk result (λ clause. clause ≡ lits.now) }
    {
        let lits = SmallVec::from_slice(alloc, lits)?;
        Ok(Clause { lits })
    }

    /// The literals in order, which stay where they lie but for those of a short clause. It answers `Err` where memory runs out.
    pub fn into_vec(self) -> Result<Vec<Lit>, AllocError>
        ensures { IfOk result (λ lits. lits.items ≡ self) }
    {
        let lits = self.lits.into_vec()?;
        Ok(lits)
    }

    /// How many literals there are.
    pub fn len(&self) -> usize
        ensures { result ≡ length self.now }
    {
        self.lits.len()
    }

    /// The literals in order.
    pub fn as_slice(&self) -> &[Lit]
        ensures { result.now ≡ self.now }
    {
        self.lits.as_slice()
    }

    /// Puts the literal at the end. It answers `Err` where memory runs out, and the clause is as before.
    pub fn push(&mut self, lit: Lit) -> Result<(), AllocError>
        ensures ok { OnOk result (self.new ≡ self.old ++ lit ∷ []) }
        ensures err { OnErr result (self.new ≡ self.old) }
    {
        self.lits.push(lit)?;
        Ok(())
    }
}
