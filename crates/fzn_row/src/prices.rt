// Prices of values that are all different, added to a row.
ghost use Rattle.std.specs.Prelude.{◌≡◌, ◌⊎◌, true, length, IfErr, OnOk, Ok, Err};
ghost use Rattle.std.specs.List.{All};
ghost use Rattle.fzn_domain.specs.Narrow.{IsVariable};
ghost use Rattle.fzn_values.specs.Term.{IsTerm};
ghost use Rattle.fzn_meaning.specs.Meaning.{IsWellFormedConstraint};
ghost use Rattle.fzn_meaning.specs.Solutions.{declared_sets};
ghost use Rattle.fzn_cited.specs.declared.fault.DeriveFault.TheVariants.{Memory};
ghost use Rattle.fzn_weights.specs.Prices.{entries_from, are_prices};
ghost use Rattle.fzn_row.specs.Draft.{part_for, in_turn};
ghost use Rattle.fzn_row.specs.Prices.{with_list, price_added, prices_added};
ghost use Rattle.fzn_row.specs.Room.{draft_of, room_size, IsRoom};

use crate::room::RowDeriver;
use fzn_cited::{DeriveFault, constraint_at};
use fzn_domain::VarId;
use fzn_meaning::{Constraint, Listed, Var};
use fzn_values::Term;
use fzn_weights::{
    are_prices, are_within, entries_of, has_each_price, less_price, most_cost, priced_places,
};
use std::alloc::Global;

impl RowDeriver {
    /// Adds the prices of the places of a constraint.
    pub(crate) fn add_prices(
        &mut self,
        alloc: Global,
        given: &[Constraint],
        vars: &[Var],
        id: u64,
        low: &i64,
        prices: &[i64],
    ) -> Result<(), DeriveFault>
        requires room { IsRoom self.old }
        requires vars { length vars.now ≡ room_size self.old }
        requires given { All (IsWellFormedConstraint (room_size self.old)) given.now }
        ensures variables { room_size self.new ≡ room_size self.old }
        ensures room { IsRoom self.new }
        ensures ok { OnOk result (prices_added given.now (declared_sets vars.now) (draft_of self.old) id low.now prices.now ≡ Ok (draft_of self.new)) }
        ensures err { IfErr result (λ fault. (fault ≡ Memory) ⊎ (prices_added given.now (declared_sets vars.now) (draft_of self.old) id low.now prices.now ≡ Err fault)) }
    {
        let Some(constraint) = constraint_at(given, id) else {
            return Err(DeriveFault::NoSuchConstraint);
        };
        let Some(places) = priced_places(constraint) else {
            return Err(DeriveFault::NotDerived);
        };
        if !are_prices(low, prices) {
            return Err(DeriveFault::NotDerived);
        }
        if !has_each_price(vars, low, prices, constraint) {
            return Err(DeriveFault::NotDerived);
        }
        self.add_places_at(alloc, low, prices, places)?;
        self.raise(most_cost(places.len(), prices))
    }

    /// Adds the price of each place.
    fn add_places_at(
        &mut self,
        alloc: Global,
        low: &i64,
        prices: &[i64],
        places: &[Term],
    ) -> Result<(), DeriveFault>
        requires room { IsRoom self.old }
        requires prices { are_prices low.now prices.now ≡ true }
        requires fit { All (IsTerm (room_size self.old)) places.now }
        ensures variables { room_size self.new ≡ room_size self.old }
        ensures room { IsRoom self.new }
        ensures ok { OnOk result (in_turn (price_added low.now prices.now) (draft_of self.old) places.now ≡ Ok (draft_of self.new)) }
        ensures err { IfErr result (λ fault. (fault ≡ Memory) ⊎ (in_turn (price_added low.now prices.now) (draft_of self.old) places.now ≡ Err fault)) }
    {
        for place in places {
            self.add_place_at(alloc, low, prices, place)?;
        }
        Ok(())
    }

    fn add_place_at(
        &mut self,
        alloc: Global,
        low: &i64,
        prices: &[i64],
        place: &Term,
    ) -> Result<(), DeriveFault>
        requires room { IsRoom self.old }
        requires prices { are_prices low.now prices.now ≡ true }
        requires fits { IsTerm (room_size self.old) place.now }
        ensures variables { room_size self.new ≡ room_size self.old }
        ensures room { IsRoom self.new }
        ensures ok { OnOk result (price_added low.now prices.now (draft_of self.old) place.now ≡ Ok (draft_of self.new)) }
        ensures err { IfErr result (λ fault. (fault ≡ Memory) ⊎ (price_added low.now prices.now (draft_of self.old) place.now ≡ Err fault)) }
    {
        match place {
            Term::Constant(k) => self.raise(less_price(low, prices, k)),
            Term::Variable(var) => self.list_prices(alloc, *var, low, prices),
        }
    }

    /// Lists the prices for a variable.
    fn list_prices(
        &mut self,
        alloc: Global,
        var: VarId,
        low: &i64,
        prices: &[i64],
    ) -> Result<(), DeriveFault>
        requires room { IsRoom self.old }
        requires prices { are_prices low.now prices.now ≡ true }
        requires var { IsVariable (room_size self.old) var }
        ensures variables { room_size self.new ≡ room_size self.old }
        ensures room { IsRoom self.new }
        ensures ok { OnOk result (with_list var (draft_of self.old) low.now (entries_from low.now prices.now (part_for var self.old.parts.items).listed) ≡ Ok (draft_of self.new)) }
        ensures err { IfErr result (λ fault. (fault ≡ Memory) ⊎ (with_list var (draft_of self.old) low.now (entries_from low.now prices.now (part_for var self.old.parts.items).listed) ≡ Err fault)) }
    {
        if self.left < prices.len() {
            return Err(DeriveFault::NotDerived);
        }
        let place = self.place_of(var)?;
        let weights = entries_of(alloc, &self.parts[place].listed, low, prices)?;
        if !are_within(weights.as_slice()) {
            return Err(DeriveFault::NotDerived);
        }
        self.left -= prices.len();
        self.parts[place].listed = Some(Listed { low: *low, weights });
        Ok(())
    }
}
