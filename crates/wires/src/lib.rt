// The wires of a dump: which of them are wanted, the marks of a code, and what a value or a time says.
//
// The marks of a code are one number: 16 if a wire was declared with it, and 1, 2, 4 and 8 if it serves SCL, SDA, WP and VCC: the bits
// of a level byte.
#![tactic(auto)]

pub mod marks;
pub mod times;
pub mod values;
