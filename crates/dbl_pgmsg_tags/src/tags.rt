ghost use Rattle.std.specs.Prelude.{◌≡◌, ◌==◌, length};
ghost use Rattle.dbl_pgmsg_tags.specs.Tags.{IsKindOf};

/// The kind of a cell of TupleData in text format.
#[derive(Drop)]
pub enum CellKind {
    Null,
    Unchanged,
    Text,
}

/// The kind of the cells that begin with this tag, if any do.
pub fn cell_kind(tag: u8) -> Option<CellKind>
    ensures { IsKindOf tag result }
{
    match tag {
        b'n' => Some(CellKind::Null),
        b'u' => Some(CellKind::Unchanged),
        b't' => Some(CellKind::Text),
        _ => None,
    }
}

/// Whether a message ends here: no byte is left after its last field.
pub fn is_end(rest: &[u8]) -> bool
    ensures { result ≡ (length rest.now == 0) }
{
    rest.is_empty()
}
