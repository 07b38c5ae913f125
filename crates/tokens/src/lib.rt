// The text of a dump as tokens: what stands between blanks, each with the line that it stands on, counted from 0.
#![tactic(auto)]

ghost use Rattle.std.specs.Prelude.{◌≡◌, ◌≤◌, length};
ghost use Rattle.tokens.specs.Tokens.{blank, last_line};
ghost use Rattle.tokens.specs.Parts.{Passes, EndsWord, Finds};

pub const SPACE: u8 = 0x20;

const TAB: u8 = 0x09;

// A token, by where it starts and ends, with its line.
#[derive(Clone, Copy, Debug, PartialEq, Eq)]
pub struct Word {
    pub from: usize,
    pub to: usize,
    pub line: usize,
}

// A place in a text, and the line that it is on.
#[derive(Clone, Copy, Debug, PartialEq, Eq)]
pub struct Past {
    pub at: usize,
    pub line: usize,
}

// Whether a character parts tokens.
pub fn is_blank(character: u8) -> bool
    ensures { result ≡ blank character }
{
    // Nearly every character lies above the blanks, so that one test does for it.
    character <= SPACE
        && matches!(
            character,
            SPACE | lines::LINE_FEED | lines::CARRIAGE_RETURN | TAB
        )
}

// Past the blanks from `at` on.
fn pass_blanks(text: &[u8], at: usize, line: usize) -> Past
    requires at_in_bounds { at ≤ length text.now }
    requires line_le_at { line ≤ at }
    ensures { Passes text.now at line result }
{
    let mut on = line;
    for i in at..text.len() {
        let character = text[i];
        if !is_blank(character) {
            return Past { at: i, line: on };
        }
        if character == lines::LINE_FEED {
            on += 1;
        }
    }
    Past {
        at: text.len(),
        line: on,
    }
}

// Where the token ends that stands at `at`.
fn word_end(text: &[u8], at: usize) -> usize
    requires { at ≤ length text.now }
    ensures { EndsWord text.now at result }
{
    let rest = &text[at..];
    let length = rest
        .iter()
        .position(|&character| is_blank(character))
        .unwrap_or(rest.len());
    at + length
}

// The next token from `at` on, if one is left.
pub fn next(text: &[u8], at: usize, line: usize) -> Option<Word>
    requires at_in_bounds { at ≤ length text.now }
    requires line_le_at { line ≤ at }
    ensures { Finds text.now at line result }
{
    let stand = pass_blanks(text, at, line);
    if stand.at == text.len() {
        return None;
    }
    Some(Word {
        from: stand.at,
        to: word_end(text, stand.at),
        line: stand.line,
    })
}

// The line of the text's last character.
pub fn last_line(text: &[u8]) -> usize
    ensures value { result ≡ last_line text.now }
    ensures upper_bound { result ≤ length text.now }
{
    let before = &text[..text.len().saturating_sub(1)];
    before
        .iter()
        .filter(|&&character| character == lines::LINE_FEED)
        .count()
}
