// Where the clause of an antecedent is found.
ghost use Rattle.std.specs.Prelude.{◌≡◌, ◌<◌, IsTrue, length};
ghost use Rattle.fzn_learned.specs.Reasoned.{known_of, IsKnown, antecedent_clause};

use fzn_clauses::Clauses;
use fzn_domain::Lit;
use fzn_propagator::Inferences;
use fzn_trail::Antecedent;

/// The clause of an antecedent.
pub fn clause_of<'a>(
    clauses: &'a Clauses,
    inferences: &'a Inferences,
    antecedent: Antecedent,
) -> &'a [Lit]
    requires { IsKnown (known_of clauses.now inferences.now) antecedent }
    ensures { result.now ≡ antecedent_clause (known_of clauses.now inferences.now) antecedent }
{
    match antecedent {
        Antecedent::Clause(id) => clauses.clause(id),
        Antecedent::Inference(place) => inferences.get(place).inference.clause.as_slice(),
    }
}

/// Whether there is a clause of this antecedent.
pub fn is_known(clauses: &Clauses, inferences: &Inferences, antecedent: Antecedent) -> bool
    ensures { IsTrue result → IsKnown (known_of clauses.now inferences.now) antecedent }
{
    match antecedent {
        Antecedent::Clause(id) => clauses.is_held(id),
        Antecedent::Inference(place) => place < inferences.len(),
    }
}
