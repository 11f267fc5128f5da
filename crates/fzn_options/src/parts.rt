// What both command lines have.
ghost use Rattle.std.specs.Prelude.{◌≡◌, [], ◌∷◌, IfOk, false};
ghost use Rattle.clap.specs.Words.{app_of, rule_of, with_rule};
ghost use Rattle.fzn_options.specs.CommandLines.{all_rule, letter_flag, letter_option, named_flag, named_option, repeated_option, path, optional_path, command_line, help_rule, version_rule};

use clap::{Arg, ArgAction, Command};
use std::alloc::{AllocError, Global};

/// A command that is given the words after the program's name.
pub fn bare<'a>(alloc: Global, name: &'a str, about: &'a str, after: &'a str) -> Command<'a>
    ensures { app_of result ≡ command_line name.entry.now [] }
{
    Command::new(alloc, name)
        .about(about)
        .after_help(after)
        .version("0.1.0")
        .no_binary_name(true)
        .disable_help_flag(true)
        .disable_version_flag(true)
}

/// The command with one more argument.
pub fn with<'a>(command: Command<'a>, arg: Arg<'a>) -> Result<Command<'a>, AllocError>
    requires { arg.global ≡ false }
    ensures { IfOk result (λ more. app_of more ≡ with_rule (app_of command.entry) (rule_of arg.entry)) }
{
    command.arg(arg)
}

/// A flag with one letter.
pub fn letter_flag<'a>(alloc: Global, id: &'a str, letter: char, help: &'a str) -> Arg<'a>
    ensures rule { rule_of result ≡ letter_flag id.entry.now letter }
    ensures own { result.global ≡ false }
{
    Arg::new(alloc, id)
        .short(letter)
        .action(ArgAction::SetTrue)
        .help(help)
}

/// A flag with a name.
pub fn named_flag<'a>(alloc: Global, id: &'a str, help: &'a str) -> Arg<'a>
    ensures rule { rule_of result ≡ named_flag id.entry.now }
    ensures own { result.global ≡ false }
{
    Arg::new(alloc, id)
        .long(id)
        .action(ArgAction::SetTrue)
        .help(help)
}

/// An option with one letter, and a value.
pub fn letter_option<'a>(
    alloc: Global,
    id: &'a str,
    letter: char,
    value: &'a str,
    help: &'a str,
) -> Arg<'a>
    ensures rule { rule_of result ≡ letter_option id.entry.now letter }
    ensures own { result.global ≡ false }
{
    Arg::new(alloc, id)
        .short(letter)
        .value_name(value)
        .help(help)
}

/// An option with a name, and a value.
pub fn named_option<'a>(alloc: Global, id: &'a str, value: &'a str, help: &'a str) -> Arg<'a>
    ensures rule { rule_of result ≡ named_option id.entry.now }
    ensures own { result.global ≡ false }
{
    Arg::new(alloc, id).long(id).value_name(value).help(help)
}

/// An option with a name, and a value, that may be given several times.
pub fn repeated_option<'a>(alloc: Global, id: &'a str, value: &'a str, help: &'a str) -> Arg<'a>
    ensures rule { rule_of result ≡ repeated_option id.entry.now }
    ensures own { result.global ≡ false }
{
    Arg::new(alloc, id)
        .long(id)
        .action(ArgAction::Append)
        .value_name(value)
        .help(help)
}

/// A path that stands by itself.
pub fn path<'a>(alloc: Global, id: &'a str, value: &'a str, help: &'a str) -> Arg<'a>
    ensures rule { rule_of result ≡ path id.entry.now }
    ensures own { result.global ≡ false }
{
    Arg::new(alloc, id)
        .value_name(value)
        .required(true)
        .help(help)
}

/// A path that stands by itself, and may be left out.
pub fn optional_path<'a>(alloc: Global, id: &'a str, value: &'a str, help: &'a str) -> Arg<'a>
    ensures rule { rule_of result ≡ optional_path id.entry.now }
    ensures own { result.global ≡ false }
{
    Arg::new(alloc, id).value_name(value).help(help)
}

/// The flag for all solutions.
pub fn all<'a>(alloc: Global) -> Arg<'a>
    ensures rule { rule_of result ≡ all_rule }
    ensures own { result.global ≡ false }
{
    letter_flag(alloc, "all", 'a', "Print every solution")
}

/// The flag that asks for help.
pub fn help<'a>(alloc: Global) -> Arg<'a>
    ensures rule { rule_of result ≡ help_rule }
    ensures own { result.global ≡ false }
{
    Arg::new(alloc, "help")
        .long("help")
        .action(ArgAction::Help)
        .help("Print this help")
}

/// The flag that asks for the version.
pub fn version<'a>(alloc: Global) -> Arg<'a>
    ensures rule { rule_of result ≡ version_rule }
    ensures own { result.global ≡ false }
{
    Arg::new(alloc, "version")
        .long("version")
        .action(ArgAction::Version)
        .help("Print the version")
}
