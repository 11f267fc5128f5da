// How decisions are made.
ghost use Rattle.std.specs.Prelude.{◌≡◌, Some, None};
ghost use Rattle.fzn_strategy.specs.declared.learn.Learn.TheVariants.{Plain, First};

use fzn_options::Options;
use fzn_search::Choice;
use fzn_strategy::Learn;

/// What the options ask for. Only a search that learns the first unique implication point restarts.
pub fn choice_for(options: &Options) -> Choice
    ensures free { result.free ≡ options.now.free }
    ensures seed { result.seed ≡ options.now.seed }
    ensures keep { result.keep ≡ options.now.keep }
    ensures parameters { result.parameters ≡ options.now.parameters }
    ensures first { options.now.learn ≡ First → result.restart_after ≡ Some options.now.restart_after }
    ensures plain { options.now.learn ≡ Plain → result.restart_after ≡ None }
{
    Choice {
        free: options.free,
        seed: options.seed,
        restart_after: match options.learn {
            Learn::Plain => None,
            Learn::First => Some(options.restart_after),
        },
        keep: options.keep,
        parameters: options.parameters,
    }
}
