// What the rules know of a constraint is what it means.
ghost use Rattle.std.specs.Prelude.{◌↔◌, ℤ, List, IfSome};
ghost use Rattle.fzn_meaning.specs.declared.constraint.Constraint.{Constraint};
ghost use Rattle.fzn_values.specs.Term.{values_of};
ghost use Rattle.fzn_meaning.specs.Meaning.{Meets, HasBooleanValues, switch_value};
ghost use Rattle.fzn_builtin_rules.specs.Choices.{inputs_of, result_of, Relates};
ghost use Rattle.fzn_builtin_rules.specs.Form.{form_of, FormHolds};

/// Values meet a constraint that has a form exactly where the form holds of them.
pub fn form_is_meant()
    ensures { (c : Constraint) (values : List ℤ) → HasBooleanValues values c
        → IfSome (form_of c) (λ form. Meets c values ↔ FormHolds form values) }
{}

/// Values meet a builtin exactly where those of its inputs and of its result relate.
pub fn relation_is_meant()
    ensures { (c : Constraint) (values : List ℤ)
        → IfSome (inputs_of c) (λ inputs. Meets c values ↔ Relates c (values_of values inputs) (switch_value values (result_of c))) }
{}
