//! The command line.

ghost use Rattle.std.specs.Prelude.{◌≡◌, ◌++◌, [], IfOk, OnOk, option_map};
ghost use Rattle.clap.specs.Matches.{first_value, found_of};
ghost use Rattle.locnum.specs.Matched.{given_among, onto_given, seen, value_of};

use crate::built::VERSION;
use crate::options::{OPTIONS, OptionEntry, PROGRAM, Takes};
use clap::{Arg, ArgAction, ArgMatches, Command};
use std::alloc::{AllocError, Global};

/// An option of the table as `clap` has it.
fn option<'a>(alloc: Global, entry: &OptionEntry) -> Arg<'a> {
    let option = Arg::new(alloc, entry.name)
        .long(entry.name)
        .help(entry.help)
        .help_heading(entry.heading);
    let option = match entry.letter {
        Some(letter) => option.short(letter),
        None => option,
    };
    match entry.takes {
        Takes::Nothing => option.action(ArgAction::SetTrue),
        Takes::Text(value) => option
            .value_name(value)
            .action(ArgAction::Set)
            .allow_hyphen_values(true),
        Takes::Perhaps(value, missing) => option
            .value_name(value)
            .num_args(0..=1)
            .default_missing_value(missing)
            .require_equals(true),
    }
}

/// An option that has the program print something, and end.
fn printing<'a>(
    alloc: Global,
    name: &'a str,
    letter: char,
    action: ArgAction,
    help: &'a str,
) -> Arg<'a> {
    Arg::new(alloc, name)
        .long(name)
        .short(letter)
        .action(action)
        .help(help)
        .help_heading(PROGRAM)
}

/// The command with all its options.
pub(crate) fn command<'a>(alloc: Global) -> Result<Command<'a>, AllocError> {
    let mut command = Command::new(alloc, "locnum")
        .version(VERSION)
        .about("Writes numbers in the form of a locale")
        .infer_long_args(true)
        .disable_help_flag(true)
        .disable_version_flag(true);
    for entry in &OPTIONS {
        command = command.arg(option(alloc, entry))?;
    }
    let help = printing(alloc, "help", 'h', ArgAction::Help, "this text");
    let version = printing(alloc, "version", 'V', ArgAction::Version, "the version");
    let numbers = Arg::new(alloc, "number")
        .value_name("NUMBER")
        .help("numbers; without them standard input is read")
        .action(ArgAction::Append)
        .num_args(0..)
        .allow_negative_numbers(true);
    command.arg(help)?.arg(version)?.arg(numbers)
}

/// The text of an option, if it is given; an option without a text has one all the same.
#[tactic(auto, unfolding(crate::specs::Matched::value_of))]
fn value_of<'a>(matches: &ArgMatches<'a>, entry: &OptionEntry) -> Option<&'a str>
    ensures { option_map (λ t. t.now) result
        ≡ value_of entry.now.takes (first_value (found_of matches.now) entry.now.name.now) }
{
    let text = matches.get_str(entry.name)?;
    match entry.takes {
        Takes::Nothing if text != "true" => None,
        _ => Some(text),
    }
}

/// Takes in an option, if it is given.
fn push_given<'a>(
    matches: &ArgMatches<'a>,
    entry: &OptionEntry,
    given: &mut Vec<(&'a str, &'a str)>,
) -> Result<(), AllocError>
    ensures { OnOk result (seen given.new.items ≡ seen given.old.items
        ++ onto_given entry.now.name.now
        (value_of entry.now.takes (first_value (found_of matches.now) entry.now.name.now)) []) }
{
    if let Some(text) = value_of(matches, entry) {
        given.push((entry.name, text))?;
    }
    Ok(())
}

/// The options of a table that are given, with their texts.
// promise: The options are those that `clap` found, in table order.
// mutations: flag_given_where_it_is_false
fn given_among<'a>(
    alloc: Global,
    entries: &[OptionEntry],
    matches: &ArgMatches<'a>,
) -> Result<Vec<(&'a str, &'a str)>, AllocError>
    ensures { IfOk result (λ given. seen given.items
        ≡ given_among (found_of matches.now) entries.now) }
{
    let mut given = Vec::new(alloc);
    for entry in entries {
        push_given(matches, entry, &mut given)?;
    }
    Ok(given)
}

/// The options that are given, with their texts. The fields of `--range` are given as those of
/// `--field`, too.
pub(crate) fn given<'a>(
    alloc: Global,
    matches: &ArgMatches<'a>,
) -> Result<Vec<(&'a str, &'a str)>, AllocError> {
    let mut given = given_among(alloc, &OPTIONS, matches)?;
    if let Some(text) = matches.get_str("range") {
        given.push(("field", text))?;
    }
    Ok(given)
}
