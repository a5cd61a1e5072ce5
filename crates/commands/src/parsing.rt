ghost use Rattle.std.specs.Prelude.{◌≡◌, [], map, string_bytes, option_map, IfOk, IfSome, IfNone, None, Some};
ghost use Rattle.clap.specs.Words.{found_of, rows_of, subcommand_rows_of};
ghost use Rattle.commands.specs.Command.{tuples};
ghost use Rattle.commands.specs.Proper.{IsProper};
ghost use Rattle.commands.specs.Syntax.{build_in, command_in, command_of, entered, filters_in, lacks_option_value, lacks_value, refusals, tuples_in};
ghost use Rattle.commands.specs.Taken.{AreTaken};
ghost use Rattle.commands.specs.Words.{asked, seen_word};

use crate::command::{Build, Command, Tuples};
use crate::filtered::{FilterWord, filter_words};
use crate::located::drawings_named;
use crate::subcommands::vfb_command;
use basics::NoMemory;
use clap::ArgMatches;
use clap::error::ErrorKind;
use std::alloc::Global;

/// What `clap` makes of the words, if it takes them.
fn matches_of<'a>(alloc: Global, words: &'a [String]) -> Result<Option<ArgMatches<'a>>, NoMemory>
    ensures { IfOk result (AreTaken (refusals (map string_bytes words.now)) (entered (map string_bytes words.now))) }
{
    let command = vfb_command(alloc)?;
    match command.try_get_matches_from(words) {
        Ok(matches) => Ok(Some(matches)),
        Err(error) => match error.kind() {
            ErrorKind::OutOfMemory => Err(NoMemory),
            _ => Ok(None),
        },
    }
}

/// The command `tuples` with these values.
fn tuples_in<'a>(matches: &ArgMatches<'a>) -> Option<Command<'a>>
    ensures { option_map asked result ≡ tuples_in (rows_of (found_of matches.now)) }
{
    let out = matches.get_str("out")?;
    let words = matches.get_strs("drawings")?;
    let drawings = drawings_named(words)?;
    Some(Command::Tuples(Tuples { out, drawings }))
}

/// The filters that the option asks for, none where it isn't there.
fn filters_in<'a>(alloc: Global, matches: &ArgMatches<'a>) -> Result<Vec<FilterWord<'a>>, NoMemory>
    ensures { IfOk result (λ filters. map seen_word filters.items ≡ filters_in (rows_of (found_of matches.now))) }
{
    match matches.get_strs("filter") {
        Some(words) => filter_words(alloc, words),
        None => Ok(Vec::new(alloc)),
    }
}

/// The command `build` with these values.
fn build_in<'a>(alloc: Global, matches: &ArgMatches<'a>) -> Result<Option<Command<'a>>, NoMemory>
    ensures { IfOk result (λ command. option_map asked command ≡ build_in (rows_of (found_of matches.now))) }
{
    let Some(design) = matches.get_str("design") else {
        return Ok(None);
    };
    let Some(out) = matches.get_str("out") else {
        return Ok(None);
    };
    let filters = filters_in(alloc, matches)?;
    Ok(Some(Command::Build(Build {
        design,
        out,
        filters,
    })))
}

/// The command whose name and values these are.
fn command_in<'a>(alloc: Global, matches: &ArgMatches<'a>) -> Result<Option<Command<'a>>, NoMemory>
    ensures { IfOk result (λ command. option_map asked command ≡ command_in (subcommand_rows_of matches.now)) }
{
    let Some((name, values)) = matches.subcommand() else {
        return Ok(None);
    };
    if name == "tuples" {
        Ok(tuples_in(values))
    } else {
        build_in(alloc, values)
    }
}

/// Whether before a word `--` the option `--filter` stands with nothing after its sign `=`.
fn lacks_value(words: &[String]) -> bool
    ensures { result ≡ lacks_value (map string_bytes words.now) }
{
    for word in words {
        if word.as_str() == "--" {
            return false;
        }
        if word.as_str() == "--filter=" {
            return true;
        }
    }
    false
}

/// The same, where the first word is the program's name.
fn lacks_option_value(words: &[String]) -> bool
    ensures { result ≡ lacks_option_value (map string_bytes words.now) }
{
    match words {
        [] => false,
        [_, words @ ..] => lacks_value(words),
    }
}

/// The command that the words are, of which the first is the program's name.
pub fn parse<'a>(alloc: Global, words: &'a Vec<String>) -> Result<Option<Command<'a>>, NoMemory>
    ensures command { IfOk result (λ command. option_map asked command ≡ command_of (map string_bytes words.now.items)) }
    ensures proper { IfOk result (λ command. IfSome (option_map asked command) IsProper) }
{
    if lacks_option_value(words.as_slice()) {
        return Ok(None);
    }
    match matches_of(alloc, words.as_slice())? {
        Some(matches) => command_in(alloc, &matches),
        None => Ok(None),
    }
}
