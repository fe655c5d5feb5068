//! The names of the tables that Relations describe.

ghost use Rattle.std.specs.Prelude.{◌≡◌};
ghost use Rattle.dbl_model_table.specs.Tables.{same_name, is_watermark};
ghost use Rattle.dbl_model_table.specs.Infos.{number_of};
ghost use Rattle.dbl_model_commit.specs.Past.{schema_of};

use dbl_base::Text;
use dbl_model_table::{TableInfo, TableName};

/// The schema that a Relation names: an empty namespace is `pg_catalog`.
pub fn schema_of(namespace: &Text) -> &str
    ensures { result.now ≡ schema_of namespace.now }
{
    let schema = namespace.as_str();
    if schema.is_empty() {
        "pg_catalog"
    } else {
        schema
    }
}

/// Whether a table has this name.
pub fn is_named(table: &TableName, schema: &str, name: &str) -> bool
    ensures { result ≡ same_name table.now (record { schema = schema.now; name = name.now }) }
{
    table.schema.as_str() == schema && table.name.as_str() == name
}

/// Whether the table of the watermarks has this name.
pub fn is_watermark(schema: &str, name: &str) -> bool
    ensures { result ≡ is_watermark (record { schema = schema.now; name = name.now }) }
{
    schema == "public" && name == "dblog_watermark"
}

/// The index of the captured table of this name. Takes no memory.
pub fn place_of(infos: &Vec<TableInfo>, schema: &str, name: &str) -> Option<usize>
    ensures { result ≡ number_of infos.now.items
        (record { schema = schema.now; name = name.now }) }
{
    infos
        .iter()
        .position(|info| is_named(&info.name, schema, name))
}
