use dbl_base::Text;

/// A cell by the name of its column: its text, or null.
#[derive(Debug, Drop)]
pub struct NamedCell {
    pub column: Text,
    pub text: Option<Text>,
}
