use dbl_base::Text;

/// The effect of a record on the rows of its topic, without the cells that it sets.
#[derive(Debug, Drop, PartialEq, Eq)]
pub enum Kind {
    Nothing,
    /// All rows of the topic are removed.
    Wipe,
    Remove { key: Text },
    /// The row of the key is set. It is `whole` if every cell was sent, and none of them is the
    /// placeholder.
    Set { key: Text, whole: bool },
}
