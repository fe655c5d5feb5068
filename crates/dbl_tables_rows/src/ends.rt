//! The ends of sessions, by commit or rollback. Neither takes memory.

ghost use Rattle.dbl_tables_rows.specs.Changing.{IsEnded, IsUndone};
ghost use Rattle.dbl_tables_rows.specs.Ends.{EachChanges, IsCommitted, IsRolledBack, SettlesOne};
ghost use Rattle.dbl_tables_rows.specs.Ends.{ReleasesOne, SettlesListed, ReleasesListed};

use crate::held::HeldKey;
use crate::rows::{Rows, end, undo};
use crate::slots::{release, settle};
use dbl_base::Text;

// Ends the session's truncates, whose rows stay gone.
fn end_tables(tables: &mut Vec<Rows>, session: &Text)
    ensures { EachChanges (λ place old new. IsEnded session.now old new)
        tables.old.items tables.new.items }
{
    for rows in tables.iter_mut() {
        end(rows, session);
    }
}

// Ends the session's truncates, whose rows are restored.
fn undo_tables(tables: &mut Vec<Rows>, session: &Text)
    ensures { EachChanges (λ place old new. IsUndone session.now old new)
        tables.old.items tables.new.items }
{
    for rows in tables.iter_mut() {
        undo(rows, session);
    }
}

fn settle_at(tables: &mut Vec<Rows>, held: &HeldKey, session: &Text)
    ensures { EachChanges (SettlesOne held.now session.now) tables.old.items tables.new.items }
{
    match tables.get_mut(held.table) {
        Some(rows) => settle(&mut rows.slots, &held.key, session),
        None => {}
    }
}

fn release_at(tables: &mut Vec<Rows>, held: &HeldKey, session: &Text)
    ensures { EachChanges (ReleasesOne held.now session.now) tables.old.items tables.new.items }
{
    match tables.get_mut(held.table) {
        Some(rows) => release(&mut rows.slots, &held.key, session),
        None => {}
    }
}

fn settle_keys(tables: &mut Vec<Rows>, keys: &[HeldKey], session: &Text)
    ensures { EachChanges (SettlesListed keys.now session.now) tables.old.items tables.new.items }
{
    for held in keys {
        settle_at(tables, held, session);
    }
}

fn release_keys(tables: &mut Vec<Rows>, keys: &[HeldKey], session: &Text)
    ensures { EachChanges (ReleasesListed keys.now session.now) tables.old.items tables.new.items }
{
    for held in keys {
        release_at(tables, held, session);
    }
}

/// Commits a session's rows, and releases its locks.
pub fn commit_tables(tables: &mut Vec<Rows>, keys: &[HeldKey], session: &Text)
    ensures { EachChanges (λ place old new. IsCommitted place keys.now session.now old new)
        tables.old.items tables.new.items }
{
    end_tables(tables, session);
    settle_keys(tables, keys, session);
}

/// Discards a session's rows, releases its locks, and restores what it truncated.
pub fn roll_back_tables(tables: &mut Vec<Rows>, keys: &[HeldKey], session: &Text)
    ensures { EachChanges (λ place old new. IsRolledBack place keys.now session.now old new)
        tables.old.items tables.new.items }
{
    undo_tables(tables, session);
    release_keys(tables, keys, session);
}
