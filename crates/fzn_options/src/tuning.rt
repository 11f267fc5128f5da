// The words that set parameters of a search.
ghost use Rattle.std.specs.Prelude.{IfOk, codes};
ghost use Rattle.clap.specs.Words.{first_of, found_of, rows_of};
ghost use Rattle.fzn_options.specs.Said.{AreUntuned};

use crate::fault::OptionsFault;
use crate::number::number_in;
use crate::said::said;
use clap::ArgMatches;
use fzn_strategy::Parameters;

/// The parameters that the words set, in their order, and else the standard ones. Which word sets which is tested and not promised.
pub fn tuned(matches: &ArgMatches<'_>) -> Result<Parameters, OptionsFault>
    ensures { IfOk result (AreUntuned (first_of (codes "tune") (rows_of (found_of matches.now)))) }
{
    match said(matches, "tune") {
        None => Ok(Parameters::default()),
        Some(_) => tuned_by(matches.get_strs("tune").unwrap_or(&[])),
    }
}

/// The standard parameters but for those that the words set.
fn tuned_by(words: &[&str]) -> Result<Parameters, OptionsFault> {
    let mut parameters = Parameters::default();
    for word in words {
        if !is_set_by(&mut parameters, word) {
            return Err(OptionsFault::CommandLine);
        }
    }
    Ok(parameters)
}

/// Sets the parameter that a word names, and answers whether the word is one of a parameter and a number in its range.
fn is_set_by(parameters: &mut Parameters, word: &str) -> bool {
    let Some((name, digits)) = word.split_once('=') else {
        return false;
    };
    match number_in(digits, 0, u64::MAX) {
        Some(number) => parameters.set(name, number),
        None => false,
    }
}
