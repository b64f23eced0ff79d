//! Arguments of a command, declared and read.

ghost use Rattle.std.specs.Prelude.{◌≡◌, IfOk, false, map, option_map};
ghost use Rattle.std.specs.String.{string_bytes};
ghost use Rattle.clap.specs.declared.builder.command.Command.TheViews.{out-Command as fields_of};
ghost use Rattle.clap.specs.Words.{app_of, first_of, found_of, new_app, rows_of, rule_of, with_rule};
ghost use Rattle.command_line.specs.Arguments.{text_of, texts_of};
ghost use Rattle.command_line.specs.internal.Commands.{IsCommand, argument_rule, placed_rule, with_arguments};

use clap::{Arg, ArgAction, ArgMatches, Command, value_parser};
use std::alloc::{AllocError, Global};

/// An argument of a command, or an option.
#[derive(Clone, Copy)]
pub(crate) struct Argument {
    /// Its name, by which the matches know it.
    pub(crate) name: &'static str,
    /// What the command's help says of it.
    pub(crate) help: &'static str,
    /// Where its words stand.
    pub(crate) place: Place,
    /// What is read of its words.
    pub(crate) value: Value,
}

/// Where the words of an argument stand.
#[derive(Clone, Copy)]
pub(crate) enum Place {
    /// It is one word, which has to be there. The usage line shows the argument's name.
    Positional,
    /// It is one word after `--` and the argument's name, and may be left out.
    Option {
        /// What the usage line shows in place of the word.
        value_name: &'static str,
    },
    /// The same, any number of times.
    RepeatedOption {
        /// What the usage line shows in place of each word.
        value_name: &'static str,
    },
    /// It is the word `--` and the argument's name alone, and may be left out.
    Flag,
}

/// What is read of the words of an argument.
#[derive(Clone, Copy)]
pub(crate) enum Value {
    /// The text as it stands.
    AnyText,
    /// A number below 2^16.
    U16,
    /// A number below 2^32.
    U32,
    /// A number below 2^64.
    U64,
}

/// The OPL file of a set.
pub(crate) const FILE: Argument = Argument {
    name: "FILE",
    help: "OPL file with the objects of the set",
    place: Place::Positional,
    value: Value::AnyText,
};

/// The file of a query.
pub(crate) const QUERY_FILE: Argument = Argument {
    name: "QUERYFILE",
    help: "File whose bytes are the query",
    place: Place::Positional,
    value: Value::AnyText,
};

/// A query.
pub(crate) const QUERY: Argument = Argument {
    name: "QUERY",
    help: "The query, as 'node(1);out;'; after '--' where it begins with '-'",
    place: Place::Positional,
    value: Value::AnyText,
};

/// A mirror to ask.
pub(crate) const MIRROR: Argument = Argument {
    name: "HOST:PORT",
    help: "Mirror to ask, as 'mirror.example:8080'",
    place: Place::Positional,
    value: Value::AnyText,
};

/// Where a pack is.
pub(crate) const PLACE: Argument = Argument {
    name: "PLACE",
    help: "File of the pack, or http://HOST[:PORT]/PATH",
    place: Place::Positional,
    value: Value::AnyText,
};

/// A command of this name with these arguments, in order, as `clap` is told of it.
pub(crate) fn command_with<'a>(
    alloc: Global,
    name: &'static str,
    about: &'static str,
    arguments: &[Argument],
) -> Result<Command<'a>, AllocError>
    ensures { IfOk result (IsCommand (with_arguments (new_app name.now) arguments.now)) }
{
    let mut command = Command::new(alloc, name).about(about);
    for argument in arguments {
        command = and_argument(alloc, command, *argument)?;
    }
    Ok(command)
}

/// The command with one more argument.
fn and_argument<'a>(
    alloc: Global,
    command: Command<'a>,
    argument: Argument,
) -> Result<Command<'a>, AllocError>
    requires { (fields_of command).has_globals ≡ false }
    ensures { IfOk result (IsCommand (with_rule (app_of command.entry) (argument_rule argument))) }
{
    command.arg(arg_of(alloc, argument))
}

/// The argument, as `clap` is told of it.
fn arg_of<'a>(alloc: Global, argument: Argument) -> Arg<'a>
    ensures rule { rule_of result ≡ argument_rule argument }
    ensures local { result.global ≡ false }
{
    let arg = placed_arg(alloc, argument);
    match argument.value {
        Value::AnyText => arg,
        Value::U16 => arg.value_parser(value_parser!(u16)),
        Value::U32 => arg.value_parser(value_parser!(u32)),
        Value::U64 => arg.value_parser(value_parser!(u64)),
    }
}

/// The argument as one whose words are read as texts.
fn placed_arg<'a>(alloc: Global, argument: Argument) -> Arg<'a>
    ensures rule { rule_of result ≡ placed_rule argument.place argument.name.now }
    ensures local { result.global ≡ false }
{
    let arg = Arg::new(alloc, argument.name).help(argument.help);
    match argument.place {
        Place::Positional => arg.required(true),
        Place::Option { value_name } => arg.long(argument.name).value_name(value_name),
        Place::RepeatedOption { value_name } => arg
            .long(argument.name)
            .value_name(value_name)
            .action(ArgAction::Append),
        Place::Flag => arg.long(argument.name).action(ArgAction::SetTrue),
    }
}

/// A copy of the text that the matches have for the argument, empty where they have none.
pub(crate) fn text_of(
    alloc: Global,
    matches: &ArgMatches<'_>,
    argument: Argument,
) -> Result<String, AllocError>
    ensures { IfOk result
        (λ s. string_bytes s ≡ text_of argument.name.now (rows_of (found_of matches.now))) }
{
    String::from_str(alloc, matches.get_str(argument.name).unwrap_or(""))
}

/// A copy of the text that the matches have for the option, if they have one.
pub(crate) fn optional_text_of(
    alloc: Global,
    matches: &ArgMatches<'_>,
    option: &str,
) -> Result<Option<String>, AllocError>
    ensures { IfOk result (λ text. option_map string_bytes text
        ≡ first_of option.now (rows_of (found_of matches.now))) }
{
    match matches.get_str(option) {
        Some(text) => Ok(Some(String::from_str(alloc, text)?)),
        None => Ok(None),
    }
}

/// Copies of all texts that the matches have for the option, in order.
pub(crate) fn all_texts_of(
    alloc: Global,
    matches: &ArgMatches<'_>,
    option: &str,
) -> Result<Vec<String>, AllocError>
    ensures { IfOk result (λ texts. map string_bytes texts.items
        ≡ texts_of option.now (rows_of (found_of matches.now))) }
{
    match matches.get_raw(option) {
        Some(texts) => copies_of(alloc, texts),
        None => Ok(Vec::new(alloc)),
    }
}

/// Copies of these texts, in order.
fn copies_of(alloc: Global, texts: &[&str]) -> Result<Vec<String>, AllocError>
    ensures { IfOk result (λ copies. map string_bytes copies.items ≡ map (λ text. text.now) texts.now) }
{
    let mut copies = Vec::with_capacity(alloc, texts.len())?;
    for text in texts {
        copies.push(String::from_str(alloc, text)?)?;
    }
    Ok(copies)
}
