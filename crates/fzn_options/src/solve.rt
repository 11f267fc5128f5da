// The words of `fznsolve`.
ghost use Rattle.std.specs.Prelude.{◌≡◌, ◌≢◌, ◌≤◌, ◌^◌, IfOk, IfSome, IsFalse, map, option_map, string_bytes, codes};
ghost use Rattle.clap.specs.Words.{app_of, first_of, found_of, matches_of, rows_of};
ghost use Rattle.fzn_options.specs.CommandLines.{solve_line};
ghost use Rattle.fzn_options.specs.Said.{AreFit, AreSaid, SaysLearning, SaysNumberOr};

use crate::fault::{OptionsFault, fault_of};
use crate::learning::learning_of;
use crate::parts;
use crate::parts::{
    all, bare, help, letter_flag, letter_option, named_flag, named_option, repeated_option,
    version, with,
};
use crate::said::{is_set, number, optional_path, path, said};
use crate::tuning::tuned;
use clap::{ArgMatches, Command};
use fzn_strategy::{Learn, Parameters};
use std::alloc::{AllocError, Global};
use std::convert::AsStr;

const MAX_LIMIT: u64 = 1_000_000_000;

const MAX_NODES: u64 = 1_000_000_000_000;

const DEFAULT_NODES: u64 = 10_000_000;

const RESTART_AFTER: u64 = 100;

const KEEP: u64 = 2_000;

const ABOUT: &str = "Solve a FlatZinc file, and write a certificate for the answer on the way";

const LIMIT: &str =
    "Stop a satisfaction at K solutions (1 to 10^9; 1 without -a and -n). An optimisation goes on";

const FREE: &str =
    "Search freely: annotations only help to find a first solution (without: follow them)";

const DERIVE: &str = "Before the search, derive constraints that follow from those of the file";

const SEED: &str = "Break ties by random words of this seed (0 to 2^64 - 1; without: by order)";

const NODES: &str = "Make at most N decisions (0 to 10^12; 10^7 without)";

const LEARN: &str =
    "Learn the clause of the decisions (plain) or of the first unique implication point (first; also without)";

const CERT: &str = "Write the certificate to FILE (without: nowhere)";

const HINTS: &str =
    "Try the solutions in FILE, s lines as certificates have them, and at each restart those added since";

const TUNE: &str =
    "Search by another number of this name, for a measurement: nothing but how a run goes rests on it. May be given several times";

const PROGRESS: &str =
    "Tell on standard error, twice a second at most, how far the search has come (without: nothing)";

const MODEL: &str = "The FlatZinc file";

const STATUSES: &str = "Status:
  0  an answer of any kind, help
  2  the file is refused
  3  the command line is
  4  a file can't be opened, read or written
  5  memory is out, or a certificate's line is too long

Example: solve a model, then check the answer
  fznsolve -a --cert answer.fzc model.fzn
  fzncheck -a model.fzn answer.fzc";

/// What `fznsolve` is asked to do. The paths are as they were written.
#[derive(Debug, Drop)]
pub struct Options {
    /// Whether every solution is printed.
    pub all: bool,
    /// At how many solutions a satisfaction stops, 1 to 10^9.
    pub limit: Option<u64>,
    /// Whether the search is free: annotations only help to find a first solution.
    pub free: bool,
    /// Whether constraints are derived from those of the file before the search.
    pub derive: bool,
    /// The seed of what breaks ties, 0 to 2^64 - 1. Without one no tie is broken by chance.
    pub seed: Option<u64>,
    /// How many decisions may be made, at most 10^12.
    pub nodes: u64,
    /// Which clause is learned from a conflict.
    pub learn: Learn,
    /// After how many conflicts the search first restarts where it learns the clause of the first unique implication point, 1 to 10^9; the
    /// parameters may name a share of it. No word says it.
    pub restart_after: u64,
    /// How many learned clauses a restart keeps, at most 10^9: the newest; the parameters may name a share of it. Cuts, clauses of one literal
    /// and those that entries rest on are kept besides. Below this number too learned clauses are forgotten, those whose literals stand on
    /// the most levels, once there are more than the parameters say. With `Plain` none is forgotten. No word says it.
    pub keep: u64,
    /// The numbers that the search goes by, on which nothing but how it goes rests.
    pub parameters: Parameters,
    /// Whether standard error tells how far the search has come.
    pub progress: bool,
    /// The path of the file.
    pub model: String,
    /// Where the certificate goes, if anywhere.
    pub cert: Option<String>,
    /// Where solutions to be tried come from, if from anywhere.
    pub hints: Option<String>,
}

/// The options that the words after the program's name give, with what stands for those that are not given. It answers `CommandLine` where
/// the words are not as the help says, a number is out of its range, no parameter has a name that is given or the certificate's path is that of
/// the file or of the hints, `Help` where they ask for help or the version, and `Memory` where memory runs out.
pub fn options_of<S: AsStr>(alloc: Global, words: &[S]) -> Result<Options, OptionsFault>
    ensures said { IfOk result (AreSaid (matches_of solve_line (map S.text words.now))) }
    ensures fit { IfOk result AreFit }
{
    let command = command(alloc)?;
    match command.try_get_matches_from(words) {
        Ok(matches) => options_in(alloc, &matches),
        Err(error) => Err(fault_of(alloc, &error)),
    }
}

fn command<'a>(alloc: Global) -> Result<Command<'a>, AllocError>
    ensures { IfOk result (λ command. app_of command ≡ solve_line) }
{
    let command = bare(alloc, "fznsolve", ABOUT, STATUSES);
    let command = with(command, all(alloc))?;
    let command = with(command, letter_option(alloc, "limit", 'n', "K", LIMIT))?;
    let command = with(command, letter_flag(alloc, "free", 'f', FREE))?;
    let command = with(command, named_flag(alloc, "derive", DERIVE))?;
    let command = with(command, letter_option(alloc, "seed", 'r', "SEED", SEED))?;
    let command = with(command, named_option(alloc, "nodes", "N", NODES))?;
    let command = with(command, named_option(alloc, "learn", "CLAUSE", LEARN))?;
    let command = with(command, named_option(alloc, "cert", "FILE", CERT))?;
    let command = with(command, named_option(alloc, "hints", "FILE", HINTS))?;
    let command = with(command, repeated_option(alloc, "tune", "NAME=NUMBER", TUNE))?;
    let command = with(command, named_flag(alloc, "progress", PROGRESS))?;
    let command = with(command, parts::path(alloc, "model", "MODEL", MODEL))?;
    let command = with(command, help(alloc))?;
    let command = with(command, version(alloc))?;
    Ok(command)
}

fn options_in(alloc: Global, matches: &ArgMatches<'_>) -> Result<Options, OptionsFault>
    ensures said { IfOk result (AreSaid (rows_of (found_of matches.now))) }
    ensures fit { IfOk result AreFit }
{
    let model = path(alloc, matches, "model")?;
    let hints = optional_path(alloc, matches, "hints")?;
    Ok(Options {
        all: is_set(matches, "all"),
        limit: number(matches, "limit", 1, MAX_LIMIT)?,
        free: is_set(matches, "free"),
        derive: is_set(matches, "derive"),
        seed: number(matches, "seed", 0, u64::MAX)?,
        nodes: nodes(matches)?,
        learn: learning(matches)?,
        restart_after: RESTART_AFTER,
        keep: KEEP,
        parameters: tuned(matches)?,
        progress: is_set(matches, "progress"),
        cert: certificate(alloc, matches, model.as_str(), &hints)?,
        model,
        hints,
    })
}

/// How many decisions may be made.
fn nodes(matches: &ArgMatches<'_>) -> Result<u64, OptionsFault>
    ensures said { IfOk result (SaysNumberOr (10 ^ 7) 0 (10 ^ 12) (first_of (codes "nodes") (rows_of (found_of matches.now)))) }
    ensures fit { IfOk result (λ nodes. nodes ≤ 10 ^ 12) }
{
    Ok(number(matches, "nodes", 0, MAX_NODES)?.unwrap_or(DEFAULT_NODES))
}

/// Which clause is learned.
fn learning(matches: &ArgMatches<'_>) -> Result<Learn, OptionsFault>
    ensures { IfOk result (SaysLearning (first_of (codes "learn") (rows_of (found_of matches.now)))) }
{
    match said(matches, "learn") {
        None => Ok(Learn::First),
        Some(word) => learning_of(word).ok_or(OptionsFault::CommandLine),
    }
}

/// The path of the certificate, if there is one: not that of the model, nor that of the hints.
fn certificate(
    alloc: Global,
    matches: &ArgMatches<'_>,
    model: &str,
    hints: &Option<String>,
) -> Result<Option<String>, OptionsFault>
    ensures said { IfOk result (λ cert. first_of (codes "cert") (rows_of (found_of matches.now)) ≡ option_map string_bytes cert) }
    ensures model { IfOk result (λ cert. IfSome cert (λ path. string_bytes path ≢ model.now)) }
    ensures hints { IfOk result (λ cert. IfSome cert (λ path. IfSome hints.now (λ other. string_bytes path ≢ string_bytes other))) }
{
    match said(matches, "cert") {
        None => Ok(None),
        Some(path) if path == model => Err(OptionsFault::CommandLine),
        Some(path) if is_path(path, hints) => Err(OptionsFault::CommandLine),
        Some(path) => Ok(Some(String::from_str(alloc, path)?)),
    }
}

/// Whether it is this path, if there is one.
fn is_path(path: &str, other: &Option<String>) -> bool
    ensures { IsFalse result → IfSome other.now (λ other. path.now ≢ string_bytes other) }
{
    match other {
        None => false,
        Some(other) => path == other.as_str(),
    }
}
