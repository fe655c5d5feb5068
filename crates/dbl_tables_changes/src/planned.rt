use dbl_model_table::Key;
use dbl_pgmsg::Message;
use dbl_tables_rows::Held;

/// The row that a session is to see at a key, under its lock; `None` if the row is deleted.
#[derive(Drop)]
pub struct Write {
    pub key: Key,
    pub held: Held,
}

/// A planned change of a table's rows: its message, the size of the entry with it, and its writes.
#[derive(Drop)]
pub struct Planned {
    pub message: Message,
    pub size: u64,
    pub writes: Vec<Write>,
}
