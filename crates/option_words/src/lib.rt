//! The options of a command line, read with `clap`: each has a name and one value.
#![tactic(auto)]

ghost use Rattle.clap.specs.Simple.{app_of};
ghost use Rattle.option_words.specs.Options.{AreRead, AreRefused, is_filled};
ghost use Rattle.option_words.specs.Apps.{option_app};
ghost use Rattle.std.specs.List.{list_all, list_any};
ghost use Rattle.std.specs.Prelude.{IfOk, MatchOption, codes, map, true, ◌≡◌};
ghost use Rattle.std.specs.Str.{bytes_eq};
ghost use Rattle.std.specs.String.{string_bytes};

use clap::error::ErrorKind;
use clap::{Arg, ArgAction, ArgMatches, Command};
use std::alloc::{AllocError, Global};

/// Reads words as options, `--name value` or `--name=value`, in any order and each at most once, where `names` are the
/// names without their dashes. `None` where the words are no such options, where a word is exactly `--`, or where the
/// value in a word of its own looks like an option.
pub fn read<'a>(
    alloc: Global,
    names: &[&'a str],
    words: &'a [String],
) -> Result<Option<ArgMatches<'a>>, AllocError>
    requires names { list_all is_filled (map (λ name. name.now) names.now) ≡ true }
    ensures { IfOk result (λ read. MatchOption read
        (AreRefused (map (λ name. name.now) names.now) (map string_bytes words.entry.now))
        (AreRead (map (λ name. name.now) names.now) (map string_bytes words.entry.now))) }
{
    if has_bare_dashes(words) {
        return Ok(None);
    }
    let command = command_of(alloc, names)?;
    match command.try_get_matches_from(words) {
        Ok(matches) => Ok(Some(matches)),
        Err(fault) => match fault.kind() {
            ErrorKind::OutOfMemory => Err(AllocError),
            _ => Ok(None),
        },
    }
}

/// Whether a word is exactly `--`.
fn has_bare_dashes(words: &[String]) -> bool
    ensures { result ≡ list_any (λ word. bytes_eq word (codes "--")) (map string_bytes words.now) }
{
    words.iter().any(|word| word.as_str() == "--")
}

/// The command with one option for each name.
fn command_of<'a>(alloc: Global, names: &[&'a str]) -> Result<Command<'a>, AllocError>
    ensures { IfOk result (λ command. app_of command ≡ option_app (map (λ name. name.now) names.now)) }
{
    let mut command = Command::new(alloc, "options")
        .no_binary_name(true)
        .disable_help_flag(true);
    for name in names {
        command = command.arg(Arg::new(alloc, name).long(name).action(ArgAction::Set))?;
    }
    Ok(command)
}
