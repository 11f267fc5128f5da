// The numbers that a search goes by, and that nothing but how it goes rests on.
ghost use Rattle.std.specs.Prelude.{◌≡◌, ◌*◌, ◌/◌, ◌^◌, ◌-◌, IsFalse, min};
ghost use Rattle.fzn_strategy.specs.Standard.{standard};

/// The numbers that choose how a search goes: when it restarts, what decides, what it keeps and what it forgets. Any numbers do, since what a
/// run promises holds with all of them; the ranges are those of `set`, and one that is out of its range is read as one that is in it where
/// it would have no meaning else. What was measured of a number stands in docs/MEASURED.md where its line says so: *Learning* is the part
/// *Learning, forgetting and deciding* there, and *Tried* the part *Tried for a conflict's time and not kept*.
#[derive(Clone, Copy, Debug, PartialEq, Eq)]
pub struct Parameters {
    /// After how many conflicts the first restart comes, in hundredths of what the options say: 1 to 10^6.
    pub first_restart: u64,
    /// How many more conflicts come before each next restart, in hundredths of those before the last one: 0 to 10^6.
    pub restart_growth: u64,
    /// How many learned clauses a restart keeps, in hundredths of what the options say: 0 to 10^6.
    pub kept_at_restart: u64,
    /// In a free search that has no solution one in so many periods between restarts is the annotations', and the next one, where it is not
    /// theirs too, that of the order by weights: 1 to 10^6 (*Learning*, *Weights*).
    pub annotation_turns: u64,
    /// In a free search one in so many periods between restarts suggests the values of the last solution: 1 to 10^6 (*Learning*).
    pub solution_turns: u64,
    /// One in so many conflicts of a free search is for bounds of the objective that are tried: 1 to 10^12 (*Learning*).
    pub probe_share: u64,
    /// How many conflicts such a bound may take at least, else none is tried: 0 to 10^12.
    pub probe_conflicts: u64,
    /// Where a derived row bounds the objective of a free search: the share of what is open that is tried first behind a solution, in
    /// thousandths: 0 to 1,000 (*Derived constraints*).
    pub probe_part: u64,
    /// How much a conflict counts for activity, in thousandths of the one after it: 1 to 1,000.
    pub decay: u64,
    /// How many terms are looked at, at most, for what values cost: 0 to 10^9.
    pub cost_terms: u64,
    /// How often the constraints are gone over, at most, for what values cost: 0 to 1,000.
    pub cost_passes: u64,
    /// With more learned clauses than these some are forgotten, at first: 0 to 10^9.
    pub learned_first: u64,
    /// The same, however long the search has gone on: 0 to 10^9.
    pub learned_last: u64,
    /// How many more learned clauses are kept each time that some are forgotten, in hundredths: 0 to 10^6 (*Tried*).
    pub learned_growth: u64,
    /// With more held clauses of inferences than these some are forgotten, at first: 0 to 10^9 (*Learning*, *Tried*).
    pub inferred_first: u64,
    /// The same, however long the search has gone on: 0 to 10^9 (*Learning*, *Tried*).
    pub inferred_last: u64,
    /// How many more of them are kept each time that some are forgotten, in hundredths: 0 to 10^6.
    pub inferred_growth: u64,
    /// How many literals a learned clause, or one of an inference, has at least that is forgotten between restarts or at one: 2 to 10^9.
    pub forgotten_length: u64,
    /// How many literals the clause of an inference has at most that is held; with fewer than 2 none is: 0 to 10^9 (*Learning*).
    pub held_length: u64,
    /// So many steps beyond twice those in use are written before some are deleted: 0 to 10^12.
    pub idle_steps: u64,
    /// Where more than so many steps are in use, these stand for the second time that they count: 0 to 10^12.
    pub idle_steps_in_use: u64,
    /// How many entries of level 0 stand at least when they are settled: 0 to 10^12.
    pub settled_entries: u64,
    /// How many more of them for each variable: 0 to 10^6.
    pub settled_entries_each: u64,
    /// How many inferences without an entry may stand beside those on which entries may rest: 0 to 10^12 (*Learning*).
    pub spare_inferences: u64,
    /// One more of them for each so many entries: 1 to 10^12.
    pub spare_share: u64,
    /// How many hints are looked at one after the other before the search goes on: 1 to 10^9.
    pub hints_at_once: u64,
}

/// The numbers of a search of which nothing else is asked.
impl Default for Parameters {
    ghost is_default = { λ parameters. parameters ≡ standard };

    fn default() -> Parameters {
        Parameters {
            first_restart: 100,
            restart_growth: 50,
            kept_at_restart: 100,
            annotation_turns: 3,
            solution_turns: 2,
            probe_share: 10,
            probe_conflicts: 32,
            probe_part: 300,
            decay: 950,
            cost_terms: 1_000_000,
            cost_passes: 4,
            learned_first: 800,
            learned_last: 30_000,
            learned_growth: 10,
            inferred_first: 3_000,
            inferred_last: 6_000,
            inferred_growth: 10,
            forgotten_length: 2,
            held_length: 4,
            idle_steps: 10_000,
            idle_steps_in_use: 100_000,
            settled_entries: 16_384,
            settled_entries_each: 8,
            spare_inferences: 64,
            spare_share: 16,
            hints_at_once: 65_536,
        }
    }
}

impl Parameters {
    /// Gives the parameter of this name this number. Answers whether there is one and the number is in its range; where it is not, all
    /// parameters are as they were.
    pub fn set(&mut self, name: &str, number: u64) -> bool
        ensures { IsFalse result → self.new ≡ self.old }
    {
        match name {
            "first_restart" => put(&mut self.first_restart, number, 1, MILLION),
            "restart_growth" => put(&mut self.restart_growth, number, 0, MILLION),
            "kept_at_restart" => put(&mut self.kept_at_restart, number, 0, MILLION),
            "annotation_turns" => put(&mut self.annotation_turns, number, 1, MILLION),
            "solution_turns" => put(&mut self.solution_turns, number, 1, MILLION),
            "probe_share" => put(&mut self.probe_share, number, 1, TRILLION),
            "probe_conflicts" => put(&mut self.probe_conflicts, number, 0, TRILLION),
            "probe_part" => put(&mut self.probe_part, number, 0, THOUSAND),
            "decay" => put(&mut self.decay, number, 1, THOUSAND),
            "cost_terms" => put(&mut self.cost_terms, number, 0, BILLION),
            "cost_passes" => put(&mut self.cost_passes, number, 0, THOUSAND),
            "learned_first" => put(&mut self.learned_first, number, 0, BILLION),
            "learned_last" => put(&mut self.learned_last, number, 0, BILLION),
            "learned_growth" => put(&mut self.learned_growth, number, 0, MILLION),
            "inferred_first" => put(&mut self.inferred_first, number, 0, BILLION),
            "inferred_last" => put(&mut self.inferred_last, number, 0, BILLION),
            "inferred_growth" => put(&mut self.inferred_growth, number, 0, MILLION),
            "forgotten_length" => put(&mut self.forgotten_length, number, 2, BILLION),
            "held_length" => put(&mut self.held_length, number, 0, BILLION),
            "idle_steps" => put(&mut self.idle_steps, number, 0, TRILLION),
            "idle_steps_in_use" => put(&mut self.idle_steps_in_use, number, 0, TRILLION),
            "settled_entries" => put(&mut self.settled_entries, number, 0, TRILLION),
            "settled_entries_each" => put(&mut self.settled_entries_each, number, 0, MILLION),
            "spare_inferences" => put(&mut self.spare_inferences, number, 0, TRILLION),
            "spare_share" => put(&mut self.spare_share, number, 1, TRILLION),
            "hints_at_once" => put(&mut self.hints_at_once, number, 1, BILLION),
            _ => false,
        }
    }
}

const THOUSAND: u64 = 1_000;

const MILLION: u64 = 1_000_000;

const BILLION: u64 = 1_000_000_000;

const TRILLION: u64 = 1_000_000_000_000;

/// Puts the number where it lies between the two others, and answers whether it does.
fn put(place: &mut u64, number: u64, least: u64, most: u64) -> bool
    ensures { IsFalse result → place.new ≡ place.old }
{
    let is_between = least <= number && number <= most;
    if is_between {
        *place = number;
    }
    is_between
}

/// So many hundredths of the number, rounded down, and no more than about 1.8 * 10^17.
pub fn hundredths(number: u64, count: u64) -> u64
    ensures { result ≡ (min (number * count) (2 ^ 64 - 1)) / 100 }
{
    number.saturating_mul(count) / 100
}
