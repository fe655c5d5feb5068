ghost use Rattle.std.specs.Prelude.{◌≡◌, IsTrue, IfOk};
ghost use Rattle.std.specs.List.{list_all};
ghost use Rattle.dbl_model_table.specs.Tables.{is_name_byte, is_name, is_watermark};
ghost use Rattle.dbl_model_table.specs.Tables.{is_good_name, is_table};

use dbl_base::{DeepCopy, Seq, Text};
use dbl_value_types::PgType;
use std::alloc::{AllocError, Global};
use std::fmt;

/// The name of a table with its schema.
#[derive(Debug, Drop, PartialEq, Eq)]
pub struct TableName {
    pub schema: Text,
    pub name: Text,
}

/// Whether the text has 1 to 63 letters, digits, `_` and `-`.
pub(crate) fn has_name_bytes(text: &str) -> bool
    ensures { result ≡ is_name text.now }
{
    !text.is_empty() && text.len() <= 63 && are_name_letters(text)
}

fn are_name_letters(text: &str) -> bool
    ensures { result ≡ list_all is_name_byte text.now }
{
    text.bytes().all(is_name_letter)
}

fn is_name_letter(byte: u8) -> bool
    ensures { result ≡ is_name_byte byte }
{
    byte.is_ascii_lowercase()
        || byte.is_ascii_uppercase()
        || byte.is_ascii_digit()
        || byte == b'_'
        || byte == b'-'
}

impl fmt::Display for TableName {
    ghost use Rattle.std.specs.Prelude.{Some};
    ghost use Rattle.dbl_model_table.specs.Tables.{full_name};

    ghost output = { λ name. Some (full_name name) };

    fn fmt<W: fmt::Write>(&self, f: &mut fmt::Formatter<W>) -> fmt::Result {
        let schema = self.schema.as_str();
        let name = self.name.as_str();
        write!(f, "{schema}.{name}")
    }
}

impl TableName {
    /// Whether it is the table of the watermarks, `public.dblog_watermark`. Takes no memory.
    pub fn is_watermark(&self) -> bool
        ensures { result ≡ is_watermark self.now }
    {
        self.schema.as_str() == "public" && self.name.as_str() == "dblog_watermark"
    }

    /// Whether a captured table may have this name. Takes no memory.
    pub fn is_good(&self) -> bool
        ensures { result ≡ is_good_name self.now }
    {
        has_name_bytes(self.schema.as_str())
            && has_name_bytes(self.name.as_str())
            && self.name.as_str() != "dblog-progress"
            && !self.is_watermark()
    }

    /// An equal name.
    pub fn copy(&self, alloc: Global) -> Result<TableName, AllocError>
        ensures { IfOk result (λ name. name ≡ self.now) }
    {
        Ok(TableName {
            schema: self.schema.copy(alloc)?,
            name: self.name.copy(alloc)?,
        })
    }
}

impl DeepCopy for TableName {
    fn deep_copy(&self, alloc: Global) -> Result<TableName, AllocError> {
        self.copy(alloc)
    }
}

/// A column as in the source's catalogue: its name and its type's OID (`pg_attribute`).
#[derive(Debug, Drop)]
pub struct RawColumn {
    pub name: Text,
    pub oid: u32,
}

/// A table as in the source's catalogue. `key` names the columns of its primary key, in key order.
/// `version` counts the table's definitions from 1.
#[derive(Debug, Drop)]
pub struct RawTable {
    pub name: TableName,
    pub columns: Seq<RawColumn>,
    pub key: Seq<Text>,
    pub version: u64,
}

/// A table's key as specified by a user: the names of its columns, in key order.
#[derive(Drop)]
pub struct TableKey {
    pub table: TableName,
    pub columns: Seq<Text>,
}

/// A row as returned by the source: a text or null for each column.
#[derive(Drop)]
pub struct RawRow {
    pub cells: Seq<Option<Text>>,
}

/// A column of a captured table.
#[derive(Debug, Drop)]
pub struct Column {
    pub name: Text,
    pub ty: PgType,
}

/// A captured table, one that `make` can return. `key` has the key columns' indices in `columns`,
/// in key order.
#[derive(Debug, Drop)]
pub struct TableInfo {
    pub name: TableName,
    pub columns: Seq<Column>,
    pub key: Seq<u32>,
    pub ghost sound: { IsTrue (is_table name columns key) },
}

impl DeepCopy for Column {
    fn deep_copy(&self, alloc: Global) -> Result<Column, AllocError> {
        Ok(Column {
            name: self.name.copy(alloc)?,
            ty: self.ty,
        })
    }
}

impl TableInfo {
    /// An equal table description.
    pub fn copy(&self, alloc: Global) -> Result<TableInfo, AllocError>
        ensures { IfOk result (λ info. info ≡ self.now) }
    {
        let name = self.name.copy(alloc)?;
        let columns = self.columns.copy(alloc)?;
        let key = Seq::make(Vec::from_slice(alloc, self.key.items().as_slice())?);
        Ok(TableInfo { name, columns, key })
    }
}

impl DeepCopy for TableInfo {
    fn deep_copy(&self, alloc: Global) -> Result<TableInfo, AllocError> {
        self.copy(alloc)
    }
}
