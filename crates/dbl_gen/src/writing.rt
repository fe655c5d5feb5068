ghost use Rattle.std.specs.Prelude.{◌≡◌, ◌≤◌, ◌++◌, ◌%◌, ◌∷◌, [], IfOk, OnOk};
ghost use Rattle.std.specs.String.{string_bytes};
ghost use Rattle.dbl_base.specs.Lines.{lines_text};
ghost use Rattle.dbl_gen.specs.Workload.{row_line, row_lines, insert_line, balance_line};
ghost use Rattle.dbl_gen.specs.Workload.{delete_line, note_line, tick_line, change};
ghost use Rattle.dbl_gen.specs.Workload.{begin_line, commit_line, lines_before};
ghost use Rattle.dbl_gen.specs.Workload.{group_lines, groups_from, last_lines, workload};

use crate::draws::Draws;
use dbl_base::Text;
use std::alloc::{AllocError, Global};
use std::fmt::Write;

const TABLES: &str =
    "table public.accounts default toast 64 id:int8:key owner:text balance:int8 note:text
table public.empty default toast 64 id:int4:key name:text
";

const SESSIONS: u32 = 3;

// The session of a group; the three take turns.
fn session_of(group: u32) -> u32
    ensures { result ≡ group % 3 }
{
    group % SESSIONS
}

#[tactic(auto, unfolding(crate::specs::Workload::row_line))]
fn write_row(text: &mut String, key: u32) -> Result<(), AllocError>
    ensures { OnOk result
        (string_bytes text.new ≡ string_bytes text.old ++ lines_text (row_line key ∷ [])) }
{
    writeln!(
        text,
        "row public.accounts id={key} owner=u{key} balance=100 note=nnnnnnnnnnnnnnnnnnnnnnnnnnnnnnnnnnnnnnnnnnnnnnnnnnnnnnnnnnnnnnnn"
    )
}

fn write_insert(text: &mut String, group: u32, key: u64) -> Result<(), AllocError>
    ensures { OnOk result
        (string_bytes text.new ≡ string_bytes text.old ++ lines_text (insert_line group key ∷ [])) }
{
    let session = session_of(group);
    writeln!(
        text,
        "s{session} insert public.accounts id={key} owner=u{key} balance=0 note=new"
    )
}

fn write_balance(text: &mut String, group: u32, key: u64, balance: u64) -> Result<(), AllocError>
    ensures { OnOk result (string_bytes text.new ≡ string_bytes text.old ++ lines_text
        (balance_line group key balance ∷ [])) }
{
    let session = session_of(group);
    writeln!(
        text,
        "s{session} update public.accounts id={key} set balance={balance}"
    )
}

fn write_delete(text: &mut String, group: u32, key: u64) -> Result<(), AllocError>
    ensures { OnOk result
        (string_bytes text.new ≡ string_bytes text.old ++ lines_text (delete_line group key ∷ [])) }
{
    let session = session_of(group);
    writeln!(text, "s{session} delete public.accounts id={key}")
}

fn write_note(text: &mut String, group: u32, key: u64) -> Result<(), AllocError>
    ensures { OnOk result
        (string_bytes text.new ≡ string_bytes text.old ++ lines_text (note_line group key ∷ [])) }
{
    let session = session_of(group);
    writeln!(
        text,
        "s{session} update public.accounts id={key} set note=g{group}"
    )
}

fn write_change(
    text: &mut String,
    draws: &mut Draws,
    rows: u32,
    group: u32,
) -> Result<(), AllocError>
    requires { rows ≤ 400_000 }
    ensures line { OnOk result (string_bytes text.new ≡ string_bytes text.old ++ lines_text
        ((change rows group draws.old.state).0 ∷ [])) }
    ensures state { OnOk result (draws.new.state ≡ (change rows group draws.old.state).1) }
{
    let key = 1 + draws.draw() % (u64::from(rows) + 100);
    let kind = draws.draw() % 4;
    if kind == 0 {
        write_insert(text, group, key)?;
        return Ok(());
    }
    if kind == 1 {
        let balance = draws.draw() % 1000;
        write_balance(text, group, key, balance)?;
        return Ok(());
    }
    if kind == 2 {
        write_delete(text, group, key)?;
        return Ok(());
    }
    write_note(text, group, key)?;
    Ok(())
}

fn write_commit(text: &mut String, group: u32) -> Result<(), AllocError>
    ensures { OnOk result
        (string_bytes text.new ≡ string_bytes text.old ++ lines_text (commit_line group ∷ [])) }
{
    let session = session_of(group);
    writeln!(text, "s{session} commit")
}

// Writes the commit of the previous group's transaction, if there is one.
fn write_commit_before(text: &mut String, group: u32) -> Result<(), AllocError>
    ensures { OnOk result
        (string_bytes text.new ≡ string_bytes text.old ++ lines_text (lines_before group)) }
{
    if group <= 1 {
        return Ok(());
    }
    write_commit(text, group - 1)
}

fn write_begin(text: &mut String, group: u32) -> Result<(), AllocError>
    ensures { OnOk result
        (string_bytes text.new ≡ string_bytes text.old ++ lines_text (begin_line group ∷ [])) }
{
    let session = session_of(group);
    writeln!(text, "s{session} begin")
}

fn write_tick(text: &mut String) -> Result<(), AllocError>
    ensures { OnOk result
        (string_bytes text.new ≡ string_bytes text.old ++ lines_text (tick_line ∷ [])) }
{
    text.push_str("tick\n")
}

fn write_group(
    text: &mut String,
    draws: &mut Draws,
    rows: u32,
    group: u32,
) -> Result<(), AllocError>
    requires { rows ≤ 400_000 }
    ensures lines { OnOk result (string_bytes text.new ≡ string_bytes text.old ++ lines_text
        (group_lines rows group draws.old.state).0) }
    ensures state { OnOk result (draws.new.state ≡ (group_lines rows group draws.old.state).1) }
{
    write_begin(text, group)?;
    write_change(text, draws, rows, group)?;
    write_change(text, draws, rows, group)?;
    write_change(text, draws, rows, group)?;
    write_commit_before(text, group)?;
    write_tick(text)?;
    Ok(())
}

fn write_rows(text: &mut String, rows: u32) -> Result<(), AllocError>
    requires { rows ≤ 400_000 }
    ensures { OnOk result
        (string_bytes text.new ≡ string_bytes text.old ++ lines_text (row_lines 1 rows)) }
{
    'rows: for row in 0..rows {
        write_row(text, row + 1)?;
    }
    Ok(())
}

fn write_groups(text: &mut String, number: u64, rows: u32, groups: u32) -> Result<(), AllocError>
    requires rows { rows ≤ 400_000 }
    requires groups { groups ≤ 90_000 }
    ensures { OnOk result (string_bytes text.new ≡ string_bytes text.old ++ lines_text
        (groups_from rows 1 groups number)) }
{
    let mut draws = Draws { state: number };
    'groups: for group in 0..groups {
        write_group(text, &mut draws, rows, group + 1)?;
    }
    Ok(())
}

fn write_last(text: &mut String, groups: u32) -> Result<(), AllocError>
    ensures { OnOk result
        (string_bytes text.new ≡ string_bytes text.old ++ lines_text (last_lines groups)) }
{
    if groups == 0 {
        return Ok(());
    }
    write_commit(text, groups)
}

/// Generates the workload of a number in the workload language: two tables, `rows` accounts, and
/// `groups` groups of steps, by three sessions in turn.
pub fn script(alloc: Global, number: u64, rows: u32, groups: u32) -> Result<Text, AllocError>
    requires rows { rows ≤ 400_000 }
    requires groups { groups ≤ 90_000 }
    ensures text { IfOk result (λ text. text ≡ workload number rows groups) }
{
    let mut text = String::from_str(alloc, TABLES)?;
    write_rows(&mut text, rows)?;
    write_groups(&mut text, number, rows, groups)?;
    write_last(&mut text, groups)?;
    Ok(Text::make(text))
}
