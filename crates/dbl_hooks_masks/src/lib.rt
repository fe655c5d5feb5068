//! Masks of personal data: what is done to the texts of a column before a message is used.
#![tactic(auto)]

mod fault;
mod hook;
mod laws;
mod mapper;
mod mask;
mod masker;
mod masking;
mod places;
mod texts;

pub use fault::{MaskFault, mask_fault};
pub use hook::{Hook, TextFn};
pub use laws::masked_messages_fit;
pub use mapper::Mapper;
pub use mask::Mask;
pub use masker::{BuiltinMasker, Masker};
pub use masking::Masking;
pub use places::Places;
pub use texts::mask_text;
