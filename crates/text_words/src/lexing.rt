//! The lines of a text and the words of a line, borrowed from the text.
ghost use Rattle.std.specs.Prelude.{◌≡◌, ℕ, ◌+◌, ◌<◌, ◌≤◌, ◌^◌, ◌==◌, ◌≢◌, [], length, option_map, IfNone, IfSome, Some};
ghost use Rattle.std.specs.List.{before_first, position};
ghost use Rattle.text_words.specs.Lexing.{first_and_rest, is_blank, is_hash, is_of_word, lines_from, put_line, without_return, words_between, words_in};

/// A line of a text that has words.
#[derive(Clone, Copy, Debug)]
pub struct TextLine<'a> {
    /// The line's number. The text's first line has 1, and lines without words count.
    pub number: u32,
    /// The line without its comment, in which [`next_word`] finds its words.
    pub words: &'a [u8],
    /// The text after the line.
    pub rest: &'a [u8],
}

/// Where a byte is first.
pub(crate) fn first_place(bytes: &[u8], byte: u8) -> Option<usize>
    ensures { result ≡ position (λ b. b == byte) bytes.now }
{
    bytes.iter().position(|b| *b == byte)
}

/// The first line of a text without its line feed, and the text after that.
fn first_line(text: &[u8]) -> (&[u8], &[u8])
    requires { 0 < length text.now }
    ensures line { (n : ℕ) → lines_from n text.now
        ≡ put_line n (words_in result.0.now) (lines_from (n + 1) result.1.now) }
    ensures shorter { length result.1.now < length text.now }
{
    match first_place(text, b'\n') {
        Some(end) => (&text[..end], &text[end + 1..]),
        None => (text, &text[text.len()..]),
    }
}

/// A line without the carriage return at its very end.
fn without_return(line: &[u8]) -> &[u8]
    ensures { result.now ≡ without_return line.now }
{
    match line {
        [rest @ .., last] if *last == b'\r' => rest,
        _ => line,
    }
}

/// A line without the `#` at which a comment begins, and all after it.
fn without_comment(line: &[u8]) -> &[u8]
    ensures { result.now ≡ before_first is_hash line.now }
{
    match first_place(line, b'#') {
        Some(end) => &line[..end],
        None => line,
    }
}

/// A space or a tab.
fn is_blank(b: u8) -> bool
    ensures { result ≡ is_blank b }
{
    b == b' ' || b == b'\t'
}

/// Where a space or a tab is first.
fn first_blank(line: &[u8]) -> Option<usize>
    ensures { result ≡ position is_blank line.now }
{
    line.iter().position(|b| is_blank(*b))
}

/// Where the first word begins.
fn first_of_word(line: &[u8]) -> Option<usize>
    ensures { result ≡ position is_of_word line.now }
{
    line.iter().position(|b| !is_blank(*b))
}

/// A line from its first word on.
fn from_word(line: &[u8]) -> Option<&[u8]>
    ensures none { IfNone result (words_between line.now ≡ []) }
    ensures some { IfSome result (λ r. words_between r.now ≡ words_between line.now) }
    ensures begins { IfSome result (λ r. position is_blank r.now ≢ Some 0) }
    ensures whole { IfSome result (λ r. 0 < length r.now) }
    ensures within { IfSome result (λ r. length r.now ≤ length line.now) }
{
    let start = first_of_word(line)?;
    Some(&line[start..])
}

/// The first word of a line without a comment, and what follows it. Words are separated by one
/// or more spaces or tabs, which may be at the line's ends too.
pub fn next_word(line: &[u8]) -> Option<(&[u8], &[u8])>
    ensures words { option_map (λ w. (w.0.now, words_between w.1.now)) result
        ≡ first_and_rest (words_between line.now) }
    ensures shorter { IfSome result (λ w. length w.1.now < length line.now) }
{
    let line = from_word(line)?;
    match first_blank(line) {
        Some(end) => Some((&line[..end], &line[end + 1..])),
        None => Some((line, &line[line.len()..])),
    }
}

/// The first line of a text that has words, where the text's first line has this number.
///
/// A line ends with a line feed, which the last may lack. One carriage return at its very end is
/// dropped, and then `#` and all after it. Lines without words are skipped, but counted.
pub fn next_line(number: u32, text: &[u8]) -> Option<TextLine<'_>>
    requires { number + length text.now < 2 ^ 32 }

    // It is the first of the text's lines with words, and those after it are the rest's.
    ensures line { option_map (λ l.
        ((l.number, words_between l.words.now), lines_from (l.number + 1) l.rest.now)) result
        ≡ first_and_rest (lines_from number text.now) }

    // The text after it is shorter by what was counted.
    ensures shorter { IfSome result (λ l. l.number + 1 + length l.rest.now
        ≤ number + length text.now) }
    ensures later { IfSome result (λ l. number ≤ l.number) }
{
    let mut number = number;
    let mut rest = text;
    while !rest.is_empty() {
        let (line, behind) = first_line(rest);
        let words = without_comment(without_return(line));
        if next_word(words).is_some() {
            return Some(TextLine {
                number,
                words,
                rest: behind,
            });
        }
        number += 1;
        rest = behind;
    }
    None
}
