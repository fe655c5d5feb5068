//! What the programs of cases have in common: the words that a case is written in, what they spell, and how answers are shown.
#![tactic(auto)]

pub mod items;
pub mod messages;
pub mod shown;
pub mod words;
