// Multiples of constraints, added to a row.
ghost use Rattle.std.specs.Prelude.{◌≡◌, ◌⊎◌, ◌*◌, ◌≤◌, length, unsigned_abs, IfErr, OnOk, Ok, Err};
ghost use Rattle.std.specs.List.{All};
ghost use Rattle.fzn_list.specs.Limits.{longest};
ghost use Rattle.fzn_values.specs.Term.{IsPlace};
ghost use Rattle.fzn_meaning.specs.Meaning.{IsWellFormedConstraint};
ghost use Rattle.fzn_builtin_rules.specs.Borrowed.{places_in, form_in};
ghost use Rattle.fzn_builtin_rules.specs.Form.{Fits};
ghost use Rattle.fzn_cited.specs.declared.fault.DeriveFault.TheVariants.{Memory};
ghost use Rattle.fzn_row.specs.Draft.{in_turn};
ghost use Rattle.fzn_row.specs.Multiples.{place_added, form_added, multiple_added};
ghost use Rattle.fzn_row.specs.Room.{draft_of, room_size, IsRoom};

use crate::room::RowDeriver;
use fzn_builtin_rules::{Form, Places, form_of};
use fzn_cited::{DeriveFault, Multiple, constraint_at};
use fzn_meaning::Constraint;
use fzn_values::{Place, Term};
use fzn_weights::{is_usable, less_product, product};

impl RowDeriver {
    /// Adds the forms of constraints, each times its multiplier.
    pub(crate) fn add_multiples(
        &mut self,
        given: &[Constraint],
        multiples: &[Multiple],
    ) -> Result<(), DeriveFault>
        requires room { IsRoom self.old }
        requires given { All (IsWellFormedConstraint (room_size self.old)) given.now }
        ensures variables { room_size self.new ≡ room_size self.old }
        ensures room { IsRoom self.new }
        ensures ok { OnOk result (in_turn (multiple_added given.now) (draft_of self.old) multiples.now ≡ Ok (draft_of self.new)) }
        ensures err { IfErr result (λ fault. (fault ≡ Memory) ⊎ (in_turn (multiple_added given.now) (draft_of self.old) multiples.now ≡ Err fault)) }
    {
        for multiple in multiples {
            self.add_multiple(given, *multiple)?;
        }
        Ok(())
    }

    /// Adds one of them.
    fn add_multiple(&mut self, given: &[Constraint], multiple: Multiple) -> Result<(), DeriveFault>
        requires room { IsRoom self.old }
        requires given { All (IsWellFormedConstraint (room_size self.old)) given.now }
        ensures variables { room_size self.new ≡ room_size self.old }
        ensures room { IsRoom self.new }
        ensures ok { OnOk result (multiple_added given.now (draft_of self.old) multiple ≡ Ok (draft_of self.new)) }
        ensures err { IfErr result (λ fault. (fault ≡ Memory) ⊎ (multiple_added given.now (draft_of self.old) multiple ≡ Err fault)) }
    {
        let Some(constraint) = constraint_at(given, multiple.constraint) else {
            return Err(DeriveFault::NoSuchConstraint);
        };
        let Some(form) = form_of(constraint) else {
            return Err(DeriveFault::NotDerived);
        };
        if !is_usable(&multiple.multiplier, &form) {
            return Err(DeriveFault::NotDerived);
        }
        self.add_form(&multiple.multiplier, &form)
    }

    /// Adds a form times a multiplier.
    #[tactic(auto, unfolding(crate::specs::Multiples::form_added))]
    fn add_form(&mut self, multiplier: &i64, form: &Form<'_>) -> Result<(), DeriveFault>
        requires multiplier { unsigned_abs multiplier.now ≤ 1000000000000 }
        requires form { Fits (room_size self.old) (form_in form.now) }
        requires room { IsRoom self.old }
        ensures variables { room_size self.new ≡ room_size self.old }
        ensures room { IsRoom self.new }
        ensures ok { OnOk result (form_added multiplier.now (draft_of self.old) (form_in form.now) ≡ Ok (draft_of self.new)) }
        ensures err { IfErr result (λ fault. (fault ≡ Memory) ⊎ (form_added multiplier.now (draft_of self.old) (form_in form.now) ≡ Err fault)) }
    {
        self.add_places(multiplier, &form.places)?;
        self.raise(product(&form.bound, multiplier))
    }

    /// Adds places, each times a multiplier.
    fn add_places(&mut self, multiplier: &i64, places: &Places<'_>) -> Result<(), DeriveFault>
        requires multiplier { unsigned_abs multiplier.now ≤ 1000000000000 }
        requires fit { All (IsPlace (room_size self.old)) (places_in places.now) }
        requires few { length (places_in places.now) ≤ 2 * longest }
        requires room { IsRoom self.old }
        ensures variables { room_size self.new ≡ room_size self.old }
        ensures room { IsRoom self.new }
        ensures ok { OnOk result (in_turn (place_added multiplier.now) (draft_of self.old) (places_in places.now) ≡ Ok (draft_of self.new)) }
        ensures err { IfErr result (λ fault. (fault ≡ Memory) ⊎ (in_turn (place_added multiplier.now) (draft_of self.old) (places_in places.now) ≡ Err fault)) }
    {
        for i in 0..places.len() {
            self.add_place(multiplier, &places.place(i))?;
        }
        Ok(())
    }

    /// Adds a place, times a multiplier.
    fn add_place(&mut self, multiplier: &i64, place: &Place) -> Result<(), DeriveFault>
        requires multiplier { unsigned_abs multiplier.now ≤ 1000000000000 }
        requires fits { IsPlace (room_size self.old) place.now }
        requires room { IsRoom self.old }
        ensures variables { room_size self.new ≡ room_size self.old }
        ensures room { IsRoom self.new }
        ensures ok { OnOk result (place_added multiplier.now (draft_of self.old) place.now ≡ Ok (draft_of self.new)) }
        ensures err { IfErr result (λ fault. (fault ≡ Memory) ⊎ (place_added multiplier.now (draft_of self.old) place.now ≡ Err fault)) }
    {
        let amount = product(&place.coefficient, multiplier);
        match place.term {
            Term::Constant(k) => self.raise(less_product(&amount, &k)),
            Term::Variable(var) => self.add(var, amount),
        }
    }
}
