// Bytes as pairs of hexadecimal digits, and their sums. Nothing here knows a record's form.
#![tactic(auto)]

pub mod pairs;
pub mod sums;
