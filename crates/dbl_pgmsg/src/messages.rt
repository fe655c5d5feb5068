use dbl_base::{Bytes, Lsn, Seq, Text};

/// A message of the stream, as in PostgreSQL's "Logical Replication Message Formats". Times are
/// microseconds since 2000-01-01 UTC.
#[derive(Debug, Drop)]
pub enum Message {
    /// The start of a transaction; `lsn` is that of its commit record.
    Begin {
        lsn: Lsn,
        time: i64,
        xid: u32,
    },
    /// The end of a transaction; `lsn` is that of its commit record, and `end_lsn` is past it.
    Commit {
        flags: u8,
        lsn: Lsn,
        end_lsn: Lsn,
        time: i64,
    },
    Origin {
        lsn: Lsn,
        name: Text,
    },
    /// The kind Type: the name of a type that isn't built in.
    TypeName {
        oid: u32,
        namespace: Text,
        name: Text,
    },
    /// The columns of a table. An empty `namespace` means `pg_catalog`. `identity` is the replica
    /// identity: `d` the primary key, `n` nothing, `f` all columns, `i` an index.
    Relation {
        oid: u32,
        namespace: Text,
        name: Text,
        identity: u8,
        columns: Seq<RelationColumn>,
    },
    Insert {
        oid: u32,
        row: Tuple,
    },
    /// A changed row; `before` is the old key or the old row, if sent.
    Update {
        oid: u32,
        before: Option<OldTuple>,
        row: Tuple,
    },
    Delete {
        oid: u32,
        before: OldTuple,
    },
    /// A truncation of tables; in `options` 1 is CASCADE and 2 RESTART IDENTITY.
    Truncate {
        options: u8,
        oids: Seq<u32>,
    },
    /// The kind Message, written by `pg_logical_emit_message`.
    Logical {
        flags: u8,
        lsn: Lsn,
        prefix: Text,
        content: Bytes,
    },
}

/// A column of a Relation. Bit 0 of `flags` marks a column of the replica identity; `oid` is that
/// of the column's type.
#[derive(Debug, Drop)]
pub struct RelationColumn {
    pub flags: u8,
    pub name: Text,
    pub oid: u32,
    pub modifier: i32,
}

/// The cells of a row, one per column of its Relation.
#[derive(Debug, Drop)]
pub struct Tuple {
    pub cells: Seq<TupleCell>,
}

/// The part of the row before a change that was sent.
#[derive(Debug, Drop)]
pub enum OldTuple {
    /// `K`: the columns of the replica identity; the others are null.
    Key(Tuple),
    /// `O`: the whole row.
    Whole(Tuple),
}

/// A cell of a row.
#[derive(Debug, Drop)]
pub enum TupleCell {
    Null,
    /// An unchanged value that is stored out of line (TOAST) and wasn't sent.
    Unchanged,
    /// The value as text.
    Text(Text),
}
