// A text of lines: the line with a number, and the number of the line that holds a word. A line ends at a byte below 11, a word at one
// below 33.
ghost use Rattle.std.specs.Prelude.{◌≡◌};
ghost use Rattle.text.specs.Lines.{until, from_line, line_of, names, number_of};

// What stands in front of the text's first byte below `end`.
fn until(text: &[u8], end: u8) -> &[u8]
    ensures { result.now ≡ until end text.now }
{
    match text.iter().position(|b| *b < end) {
        Some(to) => &text[..to],
        None => text,
    }
}

// The text from its line n on; nothing if there is none.
fn from_line(text: &[u8], n: usize) -> &[u8]
    ensures { result.now ≡ from_line n text.now }
{
    let mut left = n;
    for (i, b) in text.iter().enumerate() {
        if left == 0 {
            return &text[i..];
        }
        left -= usize::from(*b < 11);
    }
    &[]
}

// Line n, counted from 0, without its end; nothing if there is none.
pub fn line_of(text: &[u8], n: usize) -> &[u8]
    ensures { result.now ≡ line_of text.now n }
{
    until(from_line(text, n), 11)
}

// Whether a word starts here and is this one.
#[tactic(auto, unfolding(crate::specs::Lines::names))]
fn names(starts: bool, text: &[u8], word: &[u8]) -> bool
    ensures { result ≡ names starts text.now word.now }
{
    starts && until(text, 33) == word
}

// The number of the line that holds the word, counted from 1.
pub fn number_of(text: &[u8], word: &[u8]) -> Option<usize>
    ensures { result ≡ number_of text.now word.now }
{
    let mut n = 0;
    let mut starts = true;
    for (i, b) in text.iter().enumerate() {
        if names(starts, &text[i..], word) {
            return Some(n + 1);
        }
        n += usize::from(*b < 11);
        starts = *b < 33;
    }
    None
}
