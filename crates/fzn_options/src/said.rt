// What the words say of each option.
ghost use Rattle.std.specs.Prelude.{◌≡◌, ◌≤◌, IfOk, IfSome, option_map, string_bytes, Some};
ghost use Rattle.clap.specs.Words.{first_of, found_of, rows_of};
ghost use Rattle.fzn_options.specs.Said.{is_flag_set, SaysNumber};

use crate::fault::OptionsFault;
use crate::number::number_in;
use clap::ArgMatches;
use std::alloc::Global;

/// What the words say of the option.
pub fn said<'a>(matches: &ArgMatches<'a>, id: &str) -> Option<&'a str>
    ensures { option_map (λ text. text.now) result ≡ first_of id.now (rows_of (found_of matches.now)) }
{
    matches.get_str(id)
}

/// Whether the flag was given.
pub fn is_set(matches: &ArgMatches<'_>, id: &str) -> bool
    ensures { result ≡ is_flag_set (first_of id.now (rows_of (found_of matches.now))) }
{
    match said(matches, id) {
        Some(text) => text == "true",
        None => false,
    }
}

/// The number that was given between these two, if one was.
pub fn number(
    matches: &ArgMatches<'_>,
    id: &str,
    least: u64,
    most: u64,
) -> Result<Option<u64>, OptionsFault>
    ensures said { IfOk result (SaysNumber least most (first_of id.now (rows_of (found_of matches.now)))) }
    ensures between { IfOk result (λ found. IfSome found (λ number. (least ≤ number) × (number ≤ most))) }
{
    let Some(word) = said(matches, id) else {
        return Ok(None);
    };
    match number_in(word, least, most) {
        Some(number) => Ok(Some(number)),
        None => Err(OptionsFault::CommandLine),
    }
}

/// The path that was given.
pub fn path(alloc: Global, matches: &ArgMatches<'_>, id: &str) -> Result<String, OptionsFault>
    ensures { IfOk result (λ path. first_of id.now (rows_of (found_of matches.now)) ≡ Some (string_bytes path)) }
{
    match said(matches, id) {
        Some(path) => Ok(String::from_str(alloc, path)?),
        None => Err(OptionsFault::CommandLine),
    }
}

/// The path that was given, if one was.
pub fn optional_path(
    alloc: Global,
    matches: &ArgMatches<'_>,
    id: &str,
) -> Result<Option<String>, OptionsFault>
    ensures { IfOk result (λ path. first_of id.now (rows_of (found_of matches.now)) ≡ option_map string_bytes path) }
{
    match said(matches, id) {
        None => Ok(None),
        Some(path) => Ok(Some(String::from_str(alloc, path)?)),
    }
}
