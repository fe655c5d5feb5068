//! From clap's matches to commands.

ghost use Rattle.std.specs.Prelude.{◌≡◌, ◌==◌, ◌&&◌, ℕ, List, codes, length, map, option_copied};
ghost use Rattle.std.specs.List.{list_all};
ghost use Rattle.clap.specs.Words.{one_text, found_of};
ghost use Rattle.clap.specs.Values.{bool_text};
ghost use Rattle.dbl_cli.specs.Items.{Setting};
ghost use Rattle.dbl_cli_commands.specs.Values.{number_or, number_if, are_tables, are_keys};
ghost use Rattle.dbl_cli_commands.specs.Values.{table_in, key_in, is_number};
ghost use Rattle.dbl_cli.specs.Commands.{names_pass, pace_passes, limit_passes, resume_passes};
ghost use Rattle.dbl_cli.specs.Commands.{name_or_demo, placeholder_or_own};
ghost use Rattle.dbl_cli.specs.Commands.{number_in, capture_passes, capture_of, resume_of};
ghost use Rattle.dbl_cli.specs.Commands.{apply_passes, apply_of, replay_passes, replay_of};
ghost use Rattle.dbl_cli.specs.Commands.{gen_passes, gen_of, values_pass, command_of};
ghost use Rattle.dbl_cli.specs.Reads.{Reads};
ghost use Rattle.dbl_cli.specs.Found.{option_in, places_in, SaysFlag, Finds};

use crate::parser::PLACE;
use crate::values::{
    keys, mask_or_none, name_or_demo, number, number_or, number_or_none, placeholder_or_own, tables,
};
use crate::verbs::Verb;
use crate::{CaptureOptions, CliError, Command, ReplayOptions, ResumeOptions};
use clap::ArgMatches;
use dbl_base::{Seq, Text};
use dbl_model_table::{TableKey, TableName};
use std::alloc::Global;

#[derive(Drop)]
struct Names {
    prefix: Text,
    db: Text,
    placeholder: Text,
}

#[derive(Clone, Copy)]
struct Pace {
    chunk: u32,
    every: u32,
    messages: u32,
}

fn naming(alloc: Global, found: &ArgMatches<'_>) -> Result<Names, CliError>
    ensures { Reads (names_pass (option_in found.now (codes "prefix"))
        (option_in found.now (codes "db")) (option_in found.now (codes "placeholder")))
        (record {
          prefix = name_or_demo (option_in found.now (codes "prefix"));
          db = name_or_demo (option_in found.now (codes "db"));
          placeholder = placeholder_or_own (option_in found.now (codes "placeholder"));
        }) result }
{
    let prefix = name_or_demo(alloc, found.get_str("prefix"))?;
    let db = name_or_demo(alloc, found.get_str("db"))?;
    let placeholder = placeholder_or_own(alloc, found.get_str("placeholder"))?;
    Ok(Names {
        prefix,
        db,
        placeholder,
    })
}

fn pacing(found: &ArgMatches<'_>) -> Result<Pace, CliError>
    ensures { Reads (pace_passes (option_in found.now (codes "chunk"))
        (option_in found.now (codes "every")) (option_in found.now (codes "messages")))
        (record {
          chunk = number_or 1000 (option_in found.now (codes "chunk"));
          every = number_or 100 (option_in found.now (codes "every"));
          messages = number_or 999999999 (option_in found.now (codes "messages"));
        }) result }
{
    let chunk = number_or(found.get_str("chunk"), 1000, 1, 100_000)?;
    let every = number_or(found.get_str("every"), 100, 1, 10_000)?;
    let messages = number_or(found.get_str("messages"), 999_999_999, 1, 999_999_999)?;
    Ok(Pace {
        chunk,
        every,
        messages,
    })
}

fn limit(found: &ArgMatches<'_>) -> Result<Option<u64>, CliError>
    ensures { Reads (limit_passes (option_in found.now (codes "max-value")))
        (number_if (option_in found.now (codes "max-value"))) result }
{
    match number_or_none(found.get_str("max-value"), 0, 999_999_999)? {
        Some(most) => Ok(Some(u64::from(most))),
        None => Ok(None),
    }
}

fn tables_in(alloc: Global, found: &ArgMatches<'_>) -> Result<Seq<TableName>, CliError>
    ensures { Reads (are_tables (places_in found.now)) (map table_in (places_in found.now)) result }
{
    match found.get_strs(PLACE) {
        Some(words) => tables(alloc, words),
        None => Ok(Seq::make(Vec::new(alloc))),
    }
}

fn keys_in(alloc: Global, found: &ArgMatches<'_>) -> Result<Seq<TableKey>, CliError>
    ensures { Reads (are_keys (places_in found.now)) (map key_in (places_in found.now)) result }
{
    match found.get_strs(PLACE) {
        Some(words) => keys(alloc, words),
        None => Ok(Seq::make(Vec::new(alloc))),
    }
}

fn capture(alloc: Global, found: &ArgMatches<'_>) -> Result<Command, CliError>
    ensures { Reads
        (capture_passes (option_in found.now (codes "prefix")) (option_in found.now (codes "db"))
        (option_in found.now (codes "placeholder"))
        (option_in found.now (codes "chunk")) (option_in found.now (codes "every"))
        (option_in found.now (codes "messages")) (option_in found.now (codes "max-value"))
        (places_in found.now))
        (capture_of (option_in found.now (codes "prefix")) (option_in found.now (codes "db"))
        (option_in found.now (codes "placeholder"))
        (option_in found.now (codes "chunk")) (option_in found.now (codes "every"))
        (option_in found.now (codes "messages")) (option_in found.now (codes "max-value"))
        (places_in found.now)) result }
{
    let Names {
        prefix,
        db,
        placeholder,
    } = naming(alloc, found)?;
    let pacing = pacing(found)?;
    let max_value = limit(found)?;
    let tables = tables_in(alloc, found)?;
    Ok(Command::Capture {
        options: CaptureOptions {
            prefix,
            db,
            placeholder,
            chunk: pacing.chunk,
            every: pacing.every,
            messages: u64::from(pacing.messages),
            max_value,
            tables,
        },
    })
}

fn resume(found: &ArgMatches<'_>) -> Result<Command, CliError>
    ensures { Reads (resume_passes (option_in found.now (codes "chunk"))
        (option_in found.now (codes "every")) (option_in found.now (codes "messages"))
        (option_in found.now (codes "max-value")))
        (resume_of (option_in found.now (codes "chunk")) (option_in found.now (codes "every"))
        (option_in found.now (codes "messages")) (option_in found.now (codes "max-value")))
        result }
{
    let pacing = pacing(found)?;
    let max_value = limit(found)?;
    Ok(Command::Resume {
        options: ResumeOptions {
            chunk: pacing.chunk,
            every: pacing.every,
            messages: u64::from(pacing.messages),
            max_value,
        },
    })
}

fn apply(alloc: Global, lines: bool, placeholder: Option<&str>) -> Result<Command, CliError>
    ensures { Reads (apply_passes lines (option_copied placeholder.entry))
        (apply_of lines (option_copied placeholder.entry)) result }
{
    if !lines && placeholder.is_some() {
        return Err(CliError::Usage);
    }
    let placeholder = placeholder_or_own(alloc, placeholder)?;
    Ok(Command::Apply { lines, placeholder })
}

fn replay(
    alloc: Global,
    found: &ArgMatches<'_>,
    raw: bool,
    stream: bool,
) -> Result<Command, CliError>
    ensures { Reads
        (replay_passes (option_in found.now (codes "prefix")) (option_in found.now (codes "db"))
        (option_in found.now (codes "placeholder")) (option_in found.now (codes "mask"))
        (places_in found.now))
        (replay_of (option_in found.now (codes "prefix")) (option_in found.now (codes "db"))
        (option_in found.now (codes "placeholder")) raw stream
        (option_in found.now (codes "mask")) (places_in found.now)) result }
{
    let Names {
        prefix,
        db,
        placeholder,
    } = naming(alloc, found)?;
    let mask = mask_or_none(alloc, found.get_str("mask"))?;
    let keys = keys_in(alloc, found)?;
    Ok(Command::Replay {
        options: ReplayOptions {
            prefix,
            db,
            placeholder,
            keys,
            raw,
            stream,
            mask,
        },
    })
}

/// The number of the one positional argument, if there is one.
fn number_in(found: &ArgMatches<'_>) -> Result<u32, CliError>
    ensures { Reads ((length (places_in found.now) == 1) && list_all (is_number 0 999999999)
        (places_in found.now)) (number_in (places_in found.now)) result }
{
    match found.get_strs(PLACE) {
        Some([word]) => number(word, 0, 999_999_999),
        _ => Err(CliError::Usage),
    }
}

fn generate(found: &ArgMatches<'_>, run: bool) -> Result<Command, CliError>
    ensures { Reads ((length (places_in found.now) == 1) && gen_passes (places_in found.now)
        (option_in found.now (codes "rows")) (option_in found.now (codes "groups")))
        (gen_of (places_in found.now) (option_in found.now (codes "rows"))
        (option_in found.now (codes "groups")) run) result }
{
    let number = number_in(found)?;
    let rows = number_or(found.get_str("rows"), 2500, 0, 400_000)?;
    let groups = number_or(found.get_str("groups"), 500, 0, 90_000)?;
    Ok(Command::Gen {
        number: u64::from(number),
        rows,
        groups,
        run,
    })
}

/// Reads clap's matches as a command.
pub fn read(alloc: Global, verb: Verb, found: &ArgMatches<'_>) -> Result<Command, CliError>
    ensures { (settings : List Setting) (words : List (List ℕ)) →
        Finds verb found.now settings words →
        Reads (values_pass verb settings words) (command_of verb settings words) result }
{
    match verb {
        Verb::Init => Ok(Command::Init),
        Verb::Topics => Ok(Command::Topics),
        Verb::Offsets => Ok(Command::Offsets),
        Verb::Compact => Ok(Command::Compact),
        Verb::Capture => capture(alloc, found),
        Verb::Resume => resume(found),
        Verb::Apply => apply(alloc, found.get_flag("lines"), found.get_str("placeholder")),
        Verb::Replay => replay(
            alloc,
            found,
            found.get_flag("raw"),
            found.get_flag("stream"),
        ),
        Verb::Gen => generate(found, found.get_flag("run")),
    }
}
