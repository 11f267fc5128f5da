//! The search for a constraint by its name.

ghost use Rattle.std.specs.Prelude.{◌≡◌, ◌≢◌, IfSome, IfNone, option_map};
ghost use Rattle.fzn_registry.specs.declared.name.Name.{Name};
ghost use Rattle.fzn_registry.specs.Registry.{IsRow, spelling_of, name_spelled};

use crate::name::Name;
use crate::signature::Signature;
use crate::spelling::{SPELLINGS, first_named};

/// The signature of the constraint whose name has these bytes, if there is one.
pub fn lookup_bytes(name: &[u8]) -> Option<Signature>
    ensures found { IfSome result (λ s. IsRow s × (spelling_of s.name ≡ name.now)) }
    ensures only { IfSome result (λ s. (n : Name) → spelling_of n ≡ name.now → n ≡ s.name) }
    ensures none { IfNone result ((n : Name) → spelling_of n ≢ name.now) }
    ensures search { option_map (λ s. s.name) result ≡ name_spelled name.now }
{
    let constraint = first_named(&SPELLINGS, name)?;
    Some(Signature {
        name: constraint,
        arguments: constraint.arguments(),
        lengths: constraint.lengths(),
        non_negative: constraint.non_negative(),
    })
}

/// The signature of the constraint with this name, if there is one.
pub fn lookup(name: &str) -> Option<Signature>
    ensures found { IfSome result (λ s. IsRow s × (spelling_of s.name ≡ name.now)) }
    ensures only { IfSome result (λ s. (n : Name) → spelling_of n ≡ name.now → n ≡ s.name) }
    ensures none { IfNone result ((n : Name) → spelling_of n ≢ name.now) }
    ensures search { option_map (λ s. s.name) result ≡ name_spelled name.now }
{
    lookup_bytes(name.as_bytes())
}
