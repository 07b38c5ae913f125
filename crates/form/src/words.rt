// Numbers as the streams hold them: little-endian words of four bytes.
ghost use Rattle.std.specs.Prelude.{◌≡◌};
ghost use Rattle.form.specs.Words.{decoded_of, encoded_of};

// Bytes in a word.
pub const WORD: usize = 4;

// Fills a row from the bytes of its words; what has no four bytes left stays as it was.
pub fn decode(bytes: &[u8], row: &mut [u32])
    ensures { row.new ≡ decoded_of bytes.now row.old }
{
    let (words, _) = bytes.as_chunks::<WORD>();
    for (i, word) in row.iter_mut().enumerate() {
        let Some(bytes) = words.get(i) else {
            return;
        };
        *word = u32::from_le_bytes(*bytes);
    }
}

// Lays the bytes of the words over `out`; what has no room for four bytes stays as it was.
pub fn encode(words: &[u32], out: &mut [u8])
    ensures { out.new ≡ encoded_of words.now out.old }
{
    for (i, word) in words.iter().enumerate() {
        let at = WORD * i;
        if out.len() - at < WORD {
            return;
        }
        out[at..at + WORD].copy_from_slice(&word.to_le_bytes());
    }
}
