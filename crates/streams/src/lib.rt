// What the programs take from outside: bytes of a reader into room that is lent, the words of the command line, and files by their names.
#![tactic(auto)]

pub mod arguments;
pub mod files;
pub mod reading;
