// The form of the bench program's cases: words, the header, and the fields that its words are put into.
#![tactic(auto)]

pub mod fields;
pub mod further;
pub mod headers;
pub mod words;
