// A text, line by line.
#![tactic(auto)]

ghost use Rattle.std.specs.Prelude.{◌≡◌, ◌+◌, ◌-◌, ◌≤◌, length, take, drop, not, nat_eq};
ghost use Rattle.std.specs.List.{prefix_len};
ghost use Rattle.lines.specs.Lines.{line_feed, first_line, lines_of, step_meant, line_step_of, trimmed};
ghost use Rattle.lines.specs.Parts.{feed_in, Skips};

pub const LINE_FEED: u8 = 10;

pub const CARRIAGE_RETURN: u8 = 13;

// A line, by where its characters end without and with its carriage return.
#[derive(Clone, Copy, Debug, PartialEq, Eq)]
pub struct Line {
    pub trimmed: usize,
    pub feed: usize,
}

// Characters that are searched at once, and half of them.
const WINDOW: usize = 16;

const HALF: usize = 8;

// Whether there is a line feed. It looks at each character in any case, so that many are tested at once.
fn has_feed(text: &[u8]) -> bool
    ensures { result ≡ feed_in text.now }
{
    text.iter().fold(false, |any, &c| any | (c == LINE_FEED))
}

// A place near the end of the line that starts at `at`, and not behind it.
fn skip(text: &[u8], at: usize) -> usize
    requires { at ≤ length text.now }
    ensures { Skips text.now at result }
{
    let mut i = at;
    for window in text[at..].chunks_exact(WINDOW) {
        if has_feed(window) {
            return if has_feed(&window[..HALF]) {
                i
            } else {
                i + HALF
            };
        }
        i += WINDOW;
    }
    i
}

// How many characters stand before the first line feed, or the end.
fn before_feed(text: &[u8]) -> usize
    ensures { result ≡ prefix_len (λ c. not (nat_eq c line_feed)) text.now }
{
    text.iter().take_while(|&&c| c != LINE_FEED).count()
}

// Where the line that starts at `at` ends: at its line feed or at the end of the text.
fn feed(text: &[u8], at: usize) -> usize
    requires { at ≤ length text.now }
    ensures { result ≡ at + length (first_line (lines_of (drop at text.now))) }
{
    let from = skip(text, at);
    from + before_feed(&text[from..])
}

// Where the line ends once a carriage return before its end is dropped.
fn trim(text: &[u8], at: usize, feed: usize) -> usize
    requires at_le_feed { at ≤ feed }
    requires feed_in_bounds { feed ≤ length text.now }
    ensures { result ≡ at + length (trimmed (take (feed - at) (drop at text.now))) }
{
    if at < feed {
        let last = feed - 1;
        if text[last] == CARRIAGE_RETURN {
            return last;
        }
    }
    feed
}

// The line that starts at `at`, or that none is left.
pub fn next_line(text: &[u8], at: usize) -> Option<Line>
    ensures { step_meant result ≡ line_step_of at (lines_of (drop at text.now)) }
{
    if at >= text.len() {
        return None;
    }
    let feed = feed(text, at);
    Some(Line {
        trimmed: trim(text, at, feed),
        feed,
    })
}
