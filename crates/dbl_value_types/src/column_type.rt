ghost use Rattle.std.specs.Prelude.{◌≡◌, None, Some, IfOk, IfErr};
ghost use Rattle.std.specs.List.{find};
ghost use Rattle.dbl_value_types.specs.Types.{oid_of, type_of, has_oid};

use crate::error::ValueError;

/// The type of a column, as far as it determines how the column's texts are parsed.
#[derive(Clone, Copy, Debug, PartialEq, Eq)]
pub enum PgType {
    Bool,
    Int2,
    Int4,
    Int8,
    Text,
    Varchar,
    Bpchar,
    Json,
    Jsonb,
    Numeric,
    Uuid,
    Bytea,
    Date,
    Time,
    Timestamp,
    Timestamptz,
    /// Any other type, by its OID; its values are texts.
    Other(u32),
}

const LISTED: [PgType; 16] = [
    PgType::Bool,
    PgType::Int2,
    PgType::Int4,
    PgType::Int8,
    PgType::Text,
    PgType::Varchar,
    PgType::Bpchar,
    PgType::Json,
    PgType::Jsonb,
    PgType::Numeric,
    PgType::Uuid,
    PgType::Bytea,
    PgType::Date,
    PgType::Time,
    PgType::Timestamp,
    PgType::Timestamptz,
];

const FLOAT4: u32 = 700;

const FLOAT8: u32 = 701;

/// The first of the types that has this OID.
fn first_with_oid(types: &[PgType], number: u32) -> Option<PgType>
    ensures { result ≡ find (has_oid number) types.now }
{
    for ty in types {
        if oid(*ty) == number {
            return Some(*ty);
        }
    }
    None
}

/// The type with an OID in PostgreSQL's catalogue; float types are refused. Takes no memory.
#[tactic(auto, unfolding(crate::specs::Types::type_of))]
pub fn of(number: u32) -> Result<PgType, ValueError>
    ensures ok { IfOk result (λ ty. type_of number ≡ Some ty) }
    ensures err { IfErr result (λ e. (e ≡ ValueError.FloatType) × (type_of number ≡ None)) }
{
    if number == FLOAT4 || number == FLOAT8 {
        return Err(ValueError::FloatType);
    }
    match first_with_oid(&LISTED, number) {
        Some(ty) => Ok(ty),
        None => Ok(PgType::Other(number)),
    }
}

/// The OID of a type.
pub fn oid(ty: PgType) -> u32
    ensures { result ≡ oid_of ty }
{
    match ty {
        PgType::Bool => 16,
        PgType::Int2 => 21,
        PgType::Int4 => 23,
        PgType::Int8 => 20,
        PgType::Text => 25,
        PgType::Varchar => 1043,
        PgType::Bpchar => 1042,
        PgType::Json => 114,
        PgType::Jsonb => 3802,
        PgType::Numeric => 1700,
        PgType::Uuid => 2950,
        PgType::Bytea => 17,
        PgType::Date => 1082,
        PgType::Time => 1083,
        PgType::Timestamp => 1114,
        PgType::Timestamptz => 1184,
        PgType::Other(number) => number,
    }
}
