//! A Relation with the kind of its table.

ghost use Rattle.std.specs.Prelude.{◌≡◌, IfOk};
ghost use Rattle.dbl_model_commit.specs.Past.{described, table_named};
ghost use Rattle.dbl_model_commit.specs.Stated.{schema_fault, target};
ghost use Rattle.dbl_txn_changes.specs.Answers.{Judges};
ghost use Rattle.dbl_txn_changes.specs.KnownTables.{known_in};

use crate::tables::{check_schema, table_named, target_of};
use dbl_base::{Seq, Text};
use dbl_model_commit::{Relation, Target, TxnError};
use dbl_model_table::TableInfo;
use dbl_pgmsg::RelationColumn;
use std::alloc::Global;

/// A table as its last Relation describes it.
#[derive(Drop)]
pub struct Known {
    pub relation: Relation,
    pub target: Target,
}

/// The table of a Relation, which must have the columns of the captured table if it is of one.
pub fn read_relation(
    alloc: Global,
    infos: &Vec<TableInfo>,
    namespace: Text,
    name: Text,
    identity: u8,
    columns: Seq<RelationColumn>,
) -> Result<Known, TxnError>
    ensures known { IfOk result (λ known.
        known ≡ known_in infos.now.items (described namespace name identity columns)) }
    ensures judged { Judges (schema_fault infos.now.items
        (described namespace name identity columns)
        (target infos.now.items (table_named namespace name))) result }
{
    let relation = Relation {
        name: table_named(alloc, namespace, name)?,
        identity,
        columns,
    };
    let target = target_of(infos, &relation.name)?;
    check_schema(alloc, infos, &relation, target)?;
    Ok(Known { relation, target })
}
