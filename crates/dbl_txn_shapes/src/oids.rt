//! The OIDs of the captured tables' Relations.

ghost use Rattle.std.specs.Prelude.{◌≡◌, slice_get};
ghost use Rattle.dbl_txn_shapes.specs.Oids.{other_among, with_oid, other_at, with_oid_of};

/// The OIDs of a table's Relations so far.
#[derive(Clone, Copy)]
pub enum TableOids {
    /// No Relation of the table was read.
    Unseen,
    /// All its Relations have this OID.
    One(u32),
    /// Two of its Relations have different OIDs.
    Several,
}

fn has_other(oids: TableOids, oid: u32) -> bool
    ensures { result ≡ other_among oids oid }
{
    match oids {
        TableOids::Unseen => false,
        TableOids::One(first) => first != oid,
        TableOids::Several => true,
    }
}

fn with_oid(oids: TableOids, oid: u32) -> TableOids
    ensures { result ≡ with_oid oid oids }
{
    if has_other(oids, oid) {
        TableOids::Several
    } else {
        TableOids::One(oid)
    }
}

/// Adds the OID of a Relation of the table at an index, and returns whether an earlier one of the
/// table has another OID. Takes no memory.
pub fn see_oid(list: &mut Vec<TableOids>, place: usize, oid: u32) -> bool
    ensures other { result ≡ other_at list.old.items place oid }
    ensures seen { list.new.items
        ≡ with_oid_of place oid list.old.items (slice_get list.old.items place) }
{
    let Some(oids) = list.get(place) else {
        return false;
    };
    let oids = *oids;
    list[place] = with_oid(oids, oid);
    has_other(oids, oid)
}
