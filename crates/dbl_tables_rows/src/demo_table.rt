use dbl_model_table::TableInfo;

/// A table of the store. If `full` is set its replica identity is full, else its primary key. A
/// text of at least `toast` bytes counts as stored out of line.
#[derive(Drop)]
pub struct DemoTable {
    pub info: TableInfo,
    pub full: bool,
    pub toast: u32,
}
