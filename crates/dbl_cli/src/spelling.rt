//! From arguments to commands.

ghost use Rattle.std.specs.Prelude.{◌≡◌, IfOk};
ghost use Rattle.dbl_cli.specs.Names.{texts};
ghost use Rattle.dbl_cli.specs.Found.{ReadsItems};
ghost use Rattle.dbl_cli.specs.Commands.{Spells};
ghost use Rattle.dbl_cli_commands.specs.Limits.{IsWithin};

use crate::items::are_items;
use crate::names::{least_of, most_of, names_of};
use crate::parser::parser_of;
use crate::reading::read;
use crate::verbs::{Verb, verb_of};
use crate::{CliError, Command};
use clap::error::ErrorKind;
use dbl_base::Text;
use std::alloc::{AllocError, Global};

fn read_items<'a>(alloc: Global, verb: Verb, items: &'a [&'a str]) -> Result<Command, CliError>
    ensures { ReadsItems verb (texts items.entry.now) result }
{
    let names = names_of(verb);
    let most = most_of(verb);
    if !are_items(names, least_of(verb), most, items) {
        return Err(CliError::Usage);
    }
    let parser: clap::Command<'a> = parser_of(alloc, names, most > 0)?;
    match parser.try_get_matches_from(items) {
        Ok(found) => read(alloc, verb, &found),
        Err(error) => match error.kind() {
            ErrorKind::OutOfMemory => Err(CliError::Memory),
            _ => Err(CliError::Usage),
        },
    }
}

fn texts_of(alloc: Global, words: &[Text]) -> Result<Vec<&str>, AllocError>
    ensures { IfOk result (λ v. texts v.items ≡ words.now) }
{
    let mut items = Vec::new(alloc);
    for word in words {
        items.push(word.as_str())?;
    }
    Ok(items)
}

/// Parses the arguments after the program's name; `Usage` if they are no command. Absent options
/// have their defaults, and all values are within their limits.
pub fn command(alloc: Global, words: &Vec<Text>) -> Result<Command, CliError>
    ensures spelled { IfOk result (λ command. Spells words.now.items command) }
    ensures usage { result ≡ Err CliError.Usage →
        (command : _) → Spells words.now.items command → ⊥ }
    ensures limits { IfOk result IsWithin }
{
    let Some((first, rest)) = words.split_first() else {
        return Err(CliError::Usage);
    };
    let Some(verb) = verb_of(first.as_str()) else {
        return Err(CliError::Usage);
    };
    let items = texts_of(alloc, rest)?;
    read_items(alloc, verb, items.as_slice())
}
