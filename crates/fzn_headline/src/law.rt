// What follows from the contracts of the solver and of the checker.
ghost use Rattle.std.specs.Prelude.{ℕ, List};
ghost use Rattle.fzn_options.specs.declared.solve.Options.{Options};
ghost use Rattle.fzn_headline.specs.Headline.{Headline};

use fzn_head::one_outcome;
use fzn_reading::one_model;

/// For every file and all options: what a run that ends without a fault has printed is a true answer of the file, left open only where the
/// node limit or the limit of solutions was reached. A check of the same file, the bytes of the run's certificate and the same `-a` accepts
/// and prints the same bytes, unless memory runs out or a read or a write fails. What a check prints of any other bytes is a true answer too.
pub fn headline()
    ensures { (file : List ℕ) (options : Options) → Headline file options }
{
    one_model();
    one_outcome();
}
