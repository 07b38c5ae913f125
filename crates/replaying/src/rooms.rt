// How much room the program makes for what it reads and writes: an array of zeros, as `[0; rooms::TEXT]`.

// The longest dump that the program takes, and one byte more: a dump that fills the room is too long. What `replayed` says then has the
// number written out.
pub const DUMP: usize = 4_194_305;

// The lines of one piece: a place has at most 20 digits.
pub const TEXT: usize = 21 * disagreements::PIECE;

// The rows of one piece.
pub const ROW: usize = disagreements::PIECE;

// The largest array.
pub const ARRAY: usize = image::LARGE;
