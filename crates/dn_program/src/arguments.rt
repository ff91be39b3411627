//! Arguments of a command.

ghost use Rattle.std.specs.Prelude.{◌≡◌, [], ◌∷◌, IfOk, false};
ghost use Rattle.clap.specs.Walk.{rule_of};
ghost use Rattle.dn_program.specs.Arguments.{HasMore, files_rule, flag_rule, number_rule, path_rule, wads_rule, with_default, word_rule};

use clap::{Arg, ArgAction, Command, value_parser};
use std::alloc::{AllocError, Global};

/// A command with more arguments. Err where memory is refused.
pub(crate) type Added<'a> = Result<Command<'a>, AllocError>;

/// An option with a number as its value.
fn number<'a>(alloc: Global, name: &'a str, least: i64, greatest: i64, about: &'a str) -> Arg<'a>
    ensures rule { rule_of result ≡ number_rule name.entry.now least greatest }
    ensures local { result.global ≡ false }
{
    Arg::new(alloc, name)
        .long(name)
        .value_parser(value_parser!(u32).range(least..=greatest))
        .help(about)
}

/// An option without a value.
pub(crate) fn switch<'a>(alloc: Global, name: &'a str, about: &'a str) -> Arg<'a>
    ensures rule { rule_of result ≡ flag_rule name.entry.now }
    ensures local { result.global ≡ false }
{
    Arg::new(alloc, name)
        .long(name)
        .action(ArgAction::SetTrue)
        .help(about)
}

/// Adds an argument.
pub(crate) fn with<'a>(command: Command<'a>, argument: Arg<'a>) -> Added<'a>
    requires { argument.global ≡ false }
    ensures { IfOk result (HasMore command.entry (rule_of argument.entry ∷ [])) }
{
    command.arg(argument)
}

/// Adds an option with a number as its value.
pub(crate) fn with_number<'a>(
    alloc: Global,
    command: Command<'a>,
    name: &'a str,
    least: i64,
    greatest: i64,
    default: &'a str,
    about: &'a str,
) -> Added<'a>
    ensures { IfOk result (HasMore command.entry
        (with_default default.entry.now (number_rule name.entry.now least greatest) ∷ [])) }
{
    let number = number(alloc, name, least, greatest, about);
    with(command, number.default_value(default))
}

/// Adds an option with a number as its value, which may be left out.
pub(crate) fn with_choice<'a>(
    alloc: Global,
    command: Command<'a>,
    name: &'a str,
    least: i64,
    greatest: i64,
    about: &'a str,
) -> Added<'a>
    ensures { IfOk result (HasMore command.entry (number_rule name.entry.now least greatest ∷ [])) }
{
    with(command, number(alloc, name, least, greatest, about))
}

/// Adds an argument that is not an option, and has to be there.
pub(crate) fn with_word<'a>(
    alloc: Global,
    command: Command<'a>,
    name: &'a str,
    value: &'a str,
    about: &'a str,
) -> Added<'a>
    ensures { IfOk result (HasMore command.entry (word_rule name.entry.now ∷ [])) }
{
    let word = Arg::new(alloc, name)
        .value_name(value)
        .required(true)
        .help(about);
    with(command, word)
}

/// Adds a file that is not an option, and may be left out.
pub(crate) fn with_path<'a>(
    alloc: Global,
    command: Command<'a>,
    name: &'a str,
    value: &'a str,
    about: &'a str,
) -> Added<'a>
    ensures { IfOk result (HasMore command.entry (path_rule name.entry.now ∷ [])) }
{
    with(command, Arg::new(alloc, name).value_name(value).help(about))
}

/// Adds the files that a command reads, of which there may be any number, by what help calls each.
pub(crate) fn with_files<'a>(alloc: Global, command: Command<'a>, value: &'a str) -> Added<'a>
    ensures { IfOk result (HasMore command.entry (files_rule ∷ [])) }
{
    let files = Arg::new(alloc, "files")
        .value_name(value)
        .num_args(1..)
        .help("What is read; standard input, if no file is given");
    with(command, files)
}

/// Adds the WADs that a command reads, of which there has to be one.
pub(crate) fn with_wads<'a>(alloc: Global, command: Command<'a>) -> Added<'a>
    ensures { IfOk result (HasMore command.entry (wads_rule ∷ [])) }
{
    let files = Arg::new(alloc, "files")
        .value_name("WAD")
        .num_args(1..)
        .required(true);
    with(command, files.help("What is read"))
}

/// Adds a flag.
pub(crate) fn with_flag<'a>(
    alloc: Global,
    command: Command<'a>,
    name: &'a str,
    about: &'a str,
) -> Added<'a>
    ensures { IfOk result (HasMore command.entry (flag_rule name.entry.now ∷ [])) }
{
    with(command, switch(alloc, name, about))
}
