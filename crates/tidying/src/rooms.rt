// How much room a program makes for what it reads and writes: an array of zeros, as `[0; rooms::TEXT]`.

// One byte more than the longest text: a text that fills it is too long, whatever follows.
pub const TEXT: usize = image::MOST_TEXT + 1;

// The longest fixed form of the largest array.
pub const FORM: usize = image::LONGEST;
