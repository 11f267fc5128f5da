// The words of `fzncheck`.
ghost use Rattle.std.specs.Prelude.{◌≡◌, ◌≢◌, true, false, IfOk, IfSome, None, Some, codes, map, option_map, string_bytes};
ghost use Rattle.clap.specs.Words.{app_of, first_of, found_of, matches_of, rows_of};
ghost use Rattle.fzn_options.specs.CommandLines.{check_line};
ghost use Rattle.fzn_options.specs.Said.{AreOtherPaths, IsCheckSaid, is_flag_set};

use crate::fault::{OptionsFault, fault_of};
use crate::parts;
use crate::parts::{all, bare, help, named_flag, named_option, optional_path, version, with};
use crate::said::{is_set, path, said};
use clap::{ArgMatches, Command};
use std::alloc::{AllocError, Global};
use std::convert::AsStr;

const ABOUT: &str = "Check the certificate of a FlatZinc file's answer, and print the answer";

const TO2: &str = "Write OLD, a certificate of version 1, as one of version 2 to NEW";

const TRIM: &str =
    "Check CERT, and write to NEW one of version 2 with all its solutions and of its other steps those that its end was found to rest on";

const CORE: &str =
    "Check CERT, and print the constraints that its closed answer was found to rest on: number, place, text";

const BOUND: &str =
    "Check CERT, print the answer, and of an optimisation the best value found and the bound that none is better than";

const ITEMS: &str = "Print what MODEL declares, states and asks for, and where; without CERT";

const MODEL: &str = "The FlatZinc file; OLD with --to2";

const CERT: &str = "The certificate of its answer; NEW with --to2";

const STATUSES: &str = "Status:
  0  the answer is printed, help
  1  the certificate is rejected
  2  the file is refused
  3  the command line is
  4  a file can't be opened, read or written
  5  memory is out

Example: solve a model, then check the answer
  fznsolve -a --cert answer.fzc model.fzn
  fzncheck -a model.fzn answer.fzc";

/// What `fzncheck` is asked to do. The paths are as they were written.
#[derive(Debug, Drop)]
pub enum CheckOptions {
    /// Check a certificate.
    Check {
        /// Whether every solution is printed.
        all: bool,
        /// The path of the file.
        model: String,
        /// The path of its certificate.
        cert: String,
    },
    /// Write a certificate of version 1 as one of version 2.
    ToVersion2 {
        /// The path of the certificate of version 1.
        old: String,
        /// The path of the new one.
        new: String,
    },
    /// Check a certificate, and write a trimmed one.
    Trim {
        /// The path of the file.
        model: String,
        /// The path of its certificate.
        cert: String,
        /// The path of the trimmed one.
        new: String,
    },
    /// Check a certificate, and print the core of its answer.
    Core {
        /// The path of the file.
        model: String,
        /// The path of its certificate.
        cert: String,
    },
    /// Check a certificate, and print its answer and the bound of the objective.
    Bound {
        /// Whether every solution is printed.
        all: bool,
        /// The path of the file.
        model: String,
        /// The path of its certificate.
        cert: String,
    },
    /// Print the items of a file.
    Items {
        /// The path of the file.
        model: String,
    },
}

/// The options that the words after the program's name give. It answers `CommandLine` where they are not as the help says, ask for two of
/// `--to2`, `--trim`, `--core`, `--bound` and `--items`, name one path twice, or a certificate where `--items` asks for none, `Help` where they ask for
/// help or the version, and `Memory` where memory runs out.
pub fn check_options_of<S: AsStr>(alloc: Global, words: &[S]) -> Result<CheckOptions, OptionsFault>
    ensures said { IfOk result (IsCheckSaid (matches_of check_line (map S.text words.now))) }
    ensures paths { IfOk result AreOtherPaths }
{
    let command = command(alloc)?;
    match command.try_get_matches_from(words) {
        Ok(matches) => options_in(alloc, &matches),
        Err(error) => Err(fault_of(alloc, &error)),
    }
}

fn command<'a>(alloc: Global) -> Result<Command<'a>, AllocError>
    ensures { IfOk result (λ command. app_of command ≡ check_line) }
{
    let command = bare(alloc, "fzncheck", ABOUT, STATUSES);
    let command = with(command, all(alloc))?;
    let command = with(command, named_flag(alloc, "to2", TO2))?;
    let command = with(command, named_option(alloc, "trim", "NEW", TRIM))?;
    let command = with(command, named_flag(alloc, "core", CORE))?;
    let command = with(command, named_flag(alloc, "bound", BOUND))?;
    let command = with(command, named_flag(alloc, "items", ITEMS))?;
    let command = with(command, parts::path(alloc, "model", "MODEL", MODEL))?;
    let command = with(command, optional_path(alloc, "cert", "CERT", CERT))?;
    let command = with(command, help(alloc))?;
    let command = with(command, version(alloc))?;
    Ok(command)
}

fn options_in(alloc: Global, matches: &ArgMatches<'_>) -> Result<CheckOptions, OptionsFault>
    ensures said { IfOk result (IsCheckSaid (rows_of (found_of matches.now))) }
    ensures paths { IfOk result AreOtherPaths }
{
    let first = path(alloc, matches, "model")?;
    if is_set(matches, "items") {
        return items_options(matches, first);
    }
    let second = path(alloc, matches, "cert")?;
    if second.as_str() == first.as_str() {
        return Err(OptionsFault::CommandLine);
    }
    if is_set(matches, "bound") {
        return bound_options(matches, first, second);
    }
    match trimmed(alloc, matches, first.as_str(), second.as_str())? {
        Some(_) if is_set(matches, "to2") => Err(OptionsFault::CommandLine),
        Some(_) if is_set(matches, "core") => Err(OptionsFault::CommandLine),
        Some(new) => Ok(CheckOptions::Trim {
            model: first,
            cert: second,
            new,
        }),
        None if is_set(matches, "core") => core_options(matches, first, second),
        None if is_set(matches, "to2") => Ok(CheckOptions::ToVersion2 {
            old: first,
            new: second,
        }),
        None => Ok(CheckOptions::Check {
            all: is_set(matches, "all"),
            model: first,
            cert: second,
        }),
    }
}

/// The items of a file are asked for, and nothing else may be.
fn items_options(matches: &ArgMatches<'_>, model: String) -> Result<CheckOptions, OptionsFault>
    requires items { is_flag_set (first_of (codes "items") (rows_of (found_of matches.now))) ≡ true }
    requires model { first_of (codes "model") (rows_of (found_of matches.now)) ≡ Some (string_bytes model) }
    ensures said { IfOk result (IsCheckSaid (rows_of (found_of matches.now))) }
    ensures paths { IfOk result AreOtherPaths }
{
    if is_set(matches, "to2") || is_set(matches, "core") || is_set(matches, "bound") {
        return Err(OptionsFault::CommandLine);
    }
    match (said(matches, "trim"), said(matches, "cert")) {
        (None, None) => Ok(CheckOptions::Items { model }),
        _ => Err(OptionsFault::CommandLine),
    }
}

/// The answer with the bound of its objective is asked for, and neither a list nor a new certificate may be.
fn bound_options(
    matches: &ArgMatches<'_>,
    model: String,
    cert: String,
) -> Result<CheckOptions, OptionsFault>
    requires items { is_flag_set (first_of (codes "items") (rows_of (found_of matches.now))) ≡ false }
    requires bound { is_flag_set (first_of (codes "bound") (rows_of (found_of matches.now))) ≡ true }
    requires model { first_of (codes "model") (rows_of (found_of matches.now)) ≡ Some (string_bytes model) }
    requires cert { first_of (codes "cert") (rows_of (found_of matches.now)) ≡ Some (string_bytes cert) }
    requires paths { string_bytes cert ≢ string_bytes model }
    ensures said { IfOk result (IsCheckSaid (rows_of (found_of matches.now))) }
    ensures paths { IfOk result AreOtherPaths }
{
    if is_set(matches, "to2") || is_set(matches, "core") {
        return Err(OptionsFault::CommandLine);
    }
    match said(matches, "trim") {
        Some(_) => Err(OptionsFault::CommandLine),
        None => Ok(CheckOptions::Bound {
            all: is_set(matches, "all"),
            model,
            cert,
        }),
    }
}

/// The core of an answer is asked for, and no new certificate may be.
fn core_options(
    matches: &ArgMatches<'_>,
    model: String,
    cert: String,
) -> Result<CheckOptions, OptionsFault>
    requires items { is_flag_set (first_of (codes "items") (rows_of (found_of matches.now))) ≡ false }
    requires bound { is_flag_set (first_of (codes "bound") (rows_of (found_of matches.now))) ≡ false }
    requires core { is_flag_set (first_of (codes "core") (rows_of (found_of matches.now))) ≡ true }
    requires trim { first_of (codes "trim") (rows_of (found_of matches.now)) ≡ None }
    requires model { first_of (codes "model") (rows_of (found_of matches.now)) ≡ Some (string_bytes model) }
    requires cert { first_of (codes "cert") (rows_of (found_of matches.now)) ≡ Some (string_bytes cert) }
    requires paths { string_bytes cert ≢ string_bytes model }
    ensures said { IfOk result (IsCheckSaid (rows_of (found_of matches.now))) }
    ensures paths { IfOk result AreOtherPaths }
{
    if is_set(matches, "to2") {
        return Err(OptionsFault::CommandLine);
    }
    Ok(CheckOptions::Core { model, cert })
}

/// The path of the trimmed certificate, if one is asked for: none of these two.
fn trimmed(
    alloc: Global,
    matches: &ArgMatches<'_>,
    model: &str,
    cert: &str,
) -> Result<Option<String>, OptionsFault>
    ensures said { IfOk result (λ new. first_of (codes "trim") (rows_of (found_of matches.now)) ≡ option_map string_bytes new) }
    ensures other { IfOk result (λ new. IfSome new (λ path. (string_bytes path ≢ model.now) × (string_bytes path ≢ cert.now))) }
{
    match said(matches, "trim") {
        None => Ok(None),
        Some(path) if path == model => Err(OptionsFault::CommandLine),
        Some(path) if path == cert => Err(OptionsFault::CommandLine),
        Some(path) => Ok(Some(String::from_str(alloc, path)?)),
    }
}
