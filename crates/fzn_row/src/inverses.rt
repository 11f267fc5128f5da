// Parts that go from a place of an inverse to the places of the other list.
ghost use Rattle.std.specs.Prelude.{◌≡◌, ◌⊎◌, ◌+◌, ◌*◌, ◌≤◌, ◌-ℤ◌, pos, length, unsigned_abs, IfErr, IfSome, OnOk, Ok, Err};
ghost use Rattle.std.specs.List.{All};
ghost use Rattle.std.specs.Option.{option_map_or};
ghost use Rattle.fzn_list.specs.Limits.{longest};
ghost use Rattle.fzn_domain.specs.Narrow.{IsVariable};
ghost use Rattle.fzn_values.specs.Term.{IsTerm};
ghost use Rattle.fzn_meaning.specs.Meaning.{AreTerms};
ghost use Rattle.fzn_cited.specs.declared.fault.DeriveFault.TheVariants.{Memory, NotDerived};
ghost use Rattle.fzn_meaning.specs.Separable.{IsWeightList, IsCoefficient};
ghost use Rattle.fzn_weights.specs.Inverses.{raised_from};
ghost use Rattle.fzn_row.specs.Draft.{part_for, with_bound};
ghost use Rattle.fzn_row.specs.Prices.{with_list};
ghost use Rattle.fzn_row.specs.Inverses.{place_raised, places_raised, moved_back, inverse_moved};
ghost use Rattle.fzn_row.specs.Room.{draft_of, room_size, IsRoom};

use crate::room::RowDeriver;
use fzn_cited::DeriveFault;
use fzn_domain::VarId;
use fzn_meaning::{Listed, VariablePart, weight_at};
use fzn_values::Term;
use fzn_weights::{MOST_TARGETS, place_in, raised};
use std::alloc::Global;

impl RowDeriver {
    /// Moves what a variable weighs as a place of one of two lists that lead back from one another to the places of the other.
    pub(crate) fn move_place(
        &mut self,
        alloc: Global,
        var: VarId,
        forward: &[Term],
        backward: &[Term],
    ) -> Result<(), DeriveFault>
        requires room { IsRoom self.old }
        requires forward { AreTerms (room_size self.old) forward.now }
        requires backward { AreTerms (room_size self.old) backward.now }
        ensures variables { room_size self.new ≡ room_size self.old }
        ensures room { IsRoom self.new }
        ensures ok { OnOk result (inverse_moved var (draft_of self.old) forward.now backward.now ≡ Ok (draft_of self.new)) }
        ensures err { IfErr result (λ fault. (fault ≡ Memory) ⊎ (inverse_moved var (draft_of self.old) forward.now backward.now ≡ Err fault)) }
    {
        if let Some(place) = place_in(backward, var) {
            return self.move_back(alloc, var, forward, place);
        }
        if let Some(place) = place_in(forward, var) {
            return self.move_back(alloc, var, backward, place);
        }
        Err(DeriveFault::NotDerived)
    }

    /// Moves what a variable weighs as this place, counted from 0, of the one list to the places of the other.
    fn move_back(
        &mut self,
        alloc: Global,
        var: VarId,
        places: &[Term],
        place: usize,
    ) -> Result<(), DeriveFault>
        requires room { IsRoom self.old }
        requires var { IsVariable (room_size self.old) var }
        requires places { All (IsTerm (room_size self.old)) places.now }
        requires place { place + 1 ≤ 2 * longest }
        ensures variables { room_size self.new ≡ room_size self.old }
        ensures room { IsRoom self.new }
        ensures ok { OnOk result (moved_back var (draft_of self.old) places.now place ≡ Ok (draft_of self.new)) }
        ensures err { IfErr result (λ fault. (fault ≡ Memory) ⊎ (moved_back var (draft_of self.old) places.now place ≡ Err fault)) }
    {
        if places.len() > MOST_TARGETS {
            return Err(DeriveFault::NotDerived);
        }
        let part = self.take_part(var)?;
        self.raise_places(alloc, &part, 1 + place as i64, places)
    }

    /// At each place the value weighs as much more as the part does at the number of the place.
    fn raise_places(
        &mut self,
        alloc: Global,
        part: &VariablePart,
        value: i64,
        places: &[Term],
    ) -> Result<(), DeriveFault>
        requires room { IsRoom self.old }
        requires part { IfSome part.now.listed IsWeightList × IsCoefficient part.now.coefficient }
        requires places { All (IsTerm (room_size self.old)) places.now }
        requires few { length places.now ≤ 65536 }
        ensures variables { room_size self.new ≡ room_size self.old }
        ensures room { IsRoom self.new }
        ensures ok { OnOk result (places_raised part.now (length places.now) value (pos 1) (draft_of self.old) places.now ≡ Ok (draft_of self.new)) }
        ensures err { IfErr result (λ fault. (fault ≡ Memory) ⊎ (places_raised part.now (length places.now) value (pos 1) (draft_of self.old) places.now ≡ Err fault)) }
    {
        for i in 0..places.len() {
            let more = weight_at(part, &(1 + i as i64));
            self.raise_place(alloc, places.len(), value, more, &places[i])?;
        }
        Ok(())
    }

    /// At the place the value weighs so much more.
    fn raise_place(
        &mut self,
        alloc: Global,
        count: usize,
        value: i64,
        more: Option<i128>,
        place: &Term,
    ) -> Result<(), DeriveFault>
        requires room { IsRoom self.old }
        requires few { count ≤ 65536 }
        requires more { IfSome more (λ weight. unsigned_abs weight ≤ 10000000000000000000000000000000) }
        requires fits { IsTerm (room_size self.old) place.now }
        ensures variables { room_size self.new ≡ room_size self.old }
        ensures room { IsRoom self.new }
        ensures ok { OnOk result (place_raised count value more (draft_of self.old) place.now ≡ Ok (draft_of self.new)) }
        ensures err { IfErr result (λ fault. (fault ≡ Memory) ⊎ (place_raised count value more (draft_of self.old) place.now ≡ Err fault)) }
    {
        match place {
            Term::Constant(k) => {
                if *k == value {
                    self.take_weight(more)
                } else {
                    Ok(())
                }
            }
            Term::Variable(var) => self.list_raised(alloc, *var, count, value, more),
        }
    }

    /// Takes a weight from the bound, where there is one.
    fn take_weight(&mut self, more: Option<i128>) -> Result<(), DeriveFault>
        requires room { IsRoom self.old }
        requires more { IfSome more (λ weight. unsigned_abs weight ≤ 10000000000000000000000000000000) }
        ensures variables { room_size self.new ≡ room_size self.old }
        ensures room { IsRoom self.new }
        ensures ok { OnOk result (option_map_or (λ w. with_bound (self.old.bound -ℤ w) (draft_of self.old)) more (Err NotDerived) ≡ Ok (draft_of self.new)) }
        ensures err { IfErr result (λ fault. (fault ≡ Memory) ⊎ (option_map_or (λ w. with_bound (self.old.bound -ℤ w) (draft_of self.old)) more (Err NotDerived) ≡ Err fault)) }
    {
        match more {
            None => Err(DeriveFault::NotDerived),
            Some(weight) => self.raise(-weight),
        }
    }

    /// Lists for the variable that the value weighs so much more.
    fn list_raised(
        &mut self,
        alloc: Global,
        var: VarId,
        count: usize,
        value: i64,
        more: Option<i128>,
    ) -> Result<(), DeriveFault>
        requires room { IsRoom self.old }
        requires var { IsVariable (room_size self.old) var }
        requires few { count ≤ 65536 }
        requires more { IfSome more (λ weight. unsigned_abs weight ≤ 10000000000000000000000000000000) }
        ensures variables { room_size self.new ≡ room_size self.old }
        ensures room { IsRoom self.new }
        ensures ok { OnOk result (with_list var (draft_of self.old) (pos 1) (raised_from (pos 1) count value more (part_for var self.old.parts.items).listed) ≡ Ok (draft_of self.new)) }
        ensures err { IfErr result (λ fault. (fault ≡ Memory) ⊎ (with_list var (draft_of self.old) (pos 1) (raised_from (pos 1) count value more (part_for var self.old.parts.items).listed) ≡ Err fault)) }
    {
        if self.left < count {
            return Err(DeriveFault::NotDerived);
        }
        let place = self.place_of(var)?;
        let weights = raised(alloc, &self.parts[place].listed, count, value, more)?;
        self.left -= count;
        self.parts[place].listed = Some(Listed { low: 1, weights });
        Ok(())
    }
}
