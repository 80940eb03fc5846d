//! The tokens of a configuration text, borrowed from it.
ghost use Rattle.std.specs.Prelude.{◌≡◌, ℕ, ◌+◌, ◌<◌, ◌≤◌, ◌^◌, ◌==◌, ◌∷◌, [], length, option_map, IfNone, IfSome, drop, IsTrue, position, slice_index, true, false, ◌||◌};
ghost use Rattle.std.specs.List.{list_any};
ghost use Rattle.asound_conf.specs.Start.{IsBefore, IsSuffix};
ghost use Rattle.asound_conf.specs.Token.{end_at, ends_word, is_control, is_quote, is_skipped, is_word_byte, line_after, mark_of, quoted_end, quoted_size, quoted_token, token_at, token_end, token_of, tokens};

use crate::error::ConfWhy;

/// A mark between words.
#[derive(Clone, Copy)]
pub enum Mark {
    OpenBrace,
    CloseBrace,
    OpenBracket,
    CloseBracket,
    Equals,
    Comma,
    Semicolon,
}

/// A token of a configuration text.
#[derive(Clone, Copy)]
pub enum Token<'a> {
    /// A run of visible bytes without marks, quotes and `#`.
    Word(&'a [u8]),
    /// What is between two quotes on one line.
    Quoted(&'a [u8]),
    Mark(Mark),
    /// What can't be a token, and why.
    Bad(ConfWhy),
}

/// A token, the number of its line, and the text that follows it.
#[derive(Clone, Copy)]
pub struct Lexeme<'a> {
    pub line: u32,
    pub token: Token<'a>,
    pub rest: &'a [u8],
}

/// A double or a single quote.
fn is_quote(b: u8) -> bool
    ensures { result ≡ is_quote b }
{
    b == b'"' || b == b'\''
}

/// The mark that a byte is.
fn mark_of(b: u8) -> Option<Mark>
    ensures { result ≡ mark_of b }
{
    match b {
        b'{' => Some(Mark::OpenBrace),
        b'}' => Some(Mark::CloseBrace),
        b'[' => Some(Mark::OpenBracket),
        b']' => Some(Mark::CloseBracket),
        b'=' => Some(Mark::Equals),
        b',' => Some(Mark::Comma),
        b';' => Some(Mark::Semicolon),
        _ => None,
    }
}

/// Whether a byte can be in a word: a visible one that is no mark, no quote and no `#`.
fn is_word(b: u8) -> bool
    ensures { result ≡ is_word_byte b }
{
    33 <= b && b <= 126 && b != b'#' && !is_quote(b) && mark_of(b).is_none()
}

/// The place of the first byte that can't be in a word.
fn first_after_word(text: &[u8]) -> Option<usize>
    ensures { result ≡ position ends_word text.now }
{
    text.iter().position(|b| !is_word(*b))
}

/// The place of the first line feed.
fn first_feed(text: &[u8]) -> Option<usize>
    ensures { result ≡ position (λ b. b == 10) text.now }
{
    text.iter().position(|b| *b == b'\n')
}

/// The place of the first quote of this kind, or of the first line feed where that comes before it.
fn first_quote(quote: u8, text: &[u8]) -> Option<usize>
    ensures { result ≡ position (λ b. b == quote || b == 10) text.now }
{
    text.iter().position(|b| *b == quote || *b == b'\n')
}

/// Where a word at the front of a text ends.
fn word_end(text: &[u8]) -> usize
    requires some { 0 < length text.now }
    requires word { is_word_byte (slice_index text.now 0) ≡ true }
    ensures value { result ≡ end_at ends_word text.now }
    ensures within { result ≤ length text.now }
{
    match first_after_word(&text[1..]) {
        Some(end) => end + 1,
        None => text.len(),
    }
}

/// Where a quoted text ends: at its closing quote, or at its line's end.
fn quoted_end(quote: u8, text: &[u8]) -> usize
    ensures value { result ≡ quoted_end quote text.now }
    ensures within { result ≤ length text.now }
{
    match first_quote(quote, text) {
        Some(end) => end,
        None => text.len(),
    }
}

/// Whether a control byte other than a tab is in a quoted text.
fn has_control(text: &[u8]) -> bool
    ensures { result ≡ list_any is_control text.now }
{
    text.iter().any(|b| *b < 32 && *b != b'\t')
}

/// Whether a backslash is in a quoted text.
fn has_escape(text: &[u8]) -> bool
    ensures { result ≡ list_any (λ b. b == 92) text.now }
{
    text.iter().any(|b| *b == b'\\')
}

/// The token of a quoted text that follows its first quote.
fn quoted_token(quote: u8, text: &[u8]) -> Token<'_>
    requires { IsTrue (is_quote quote) }
    ensures { token_of result ≡ quoted_token quote text.now }
{
    let end = quoted_end(quote, text);
    let content = &text[..end];
    if has_control(content) {
        return Token::Bad(ConfWhy::Byte);
    }
    if has_escape(content) {
        return Token::Bad(ConfWhy::Escape);
    }
    if end == text.len() || text[end] != quote {
        return Token::Bad(ConfWhy::Unclosed);
    }
    Token::Quoted(content)
}

/// How long a quoted text is with its first quote, which is before this text, and its last one.
fn quoted_size(quote: u8, text: &[u8]) -> usize
    requires quote { IsTrue (is_quote quote) }
    requires small { length text.now < 2 ^ 32 }
    ensures value { result ≡ quoted_size quote text.now }
    ensures within { result ≤ length text.now + 1 }
{
    let end = quoted_end(quote, text);
    if end < text.len() && text[end] == quote {
        end + 2
    } else {
        end + 1
    }
}

/// The token at the front of a text, and where it ends. The first byte is no blank and begins no comment.
#[tactic(auto, unfolding(crate::specs::Token::token_at, crate::specs::Token::token_end))]
fn token_at(text: &[u8]) -> (Token<'_>, usize)
    requires some { 0 < length text.now }
    requires small { length text.now < 2 ^ 32 }
    requires kept { is_skipped (slice_index text.now 0) ≡ false }
    ensures token { token_of result.0 ≡ token_at text.now }
    ensures end { result.1 ≡ token_end text.now }
    ensures moves { 0 < result.1 }
    ensures within { result.1 ≤ length text.now }
{
    let first = text[0];
    if is_word(first) {
        let end = word_end(text);
        return (Token::Word(&text[..end]), end);
    }
    if is_quote(first) {
        let behind = &text[1..];
        return (quoted_token(first, behind), quoted_size(first, behind));
    }
    match mark_of(first) {
        Some(mark) => (Token::Mark(mark), 1),
        None => (Token::Bad(ConfWhy::Byte), 1),
    }
}

/// Where the blank or the comment at the front of a text ends.
#[tactic(auto, unfolding(crate::specs::Token::token_end))]
fn skipped_end(text: &[u8]) -> usize
    requires some { 0 < length text.now }
    requires skipped { is_skipped (slice_index text.now 0) ≡ true }
    ensures value { result ≡ token_end text.now }
    ensures moves { 0 < result }
    ensures within { result ≤ length text.now }
{
    if text[0] != b'#' {
        return 1;
    }
    match first_feed(text) {
        Some(end) => end,
        None => text.len(),
    }
}

/// The text that follows the blank or the comment at its front.
fn after_skipped(text: &[u8]) -> &[u8]
    requires some { 0 < length text.now }
    requires skipped { is_skipped (slice_index text.now 0) ≡ true }
    ensures value { result.now ≡ drop (token_end text.now) text.now }
    ensures moves { 0 < token_end text.now }
    ensures shorter { length result.now < length text.now }
    ensures suffix { IsSuffix text.now result.now }
{
    &text[skipped_end(text)..]
}

/// The token at the front of a text, with its line and what follows it. The first byte is no blank and begins no comment.
fn first_lexeme(line: u32, text: &[u8]) -> Lexeme<'_>
    requires some { 0 < length text.now }
    requires small { length text.now < 2 ^ 32 }
    requires kept { is_skipped (slice_index text.now 0) ≡ false }
    ensures line { result.line ≡ line }
    ensures token { token_of result.token ≡ token_at text.now }
    ensures rest { result.rest.now ≡ drop (token_end text.now) text.now }
    ensures moves { 0 < token_end text.now }
    ensures shorter { length result.rest.now < length text.now }
    ensures before { IsBefore text.now result.rest.now result.token }
    ensures suffix { IsSuffix text.now result.rest.now }
{
    let (token, end) = token_at(text);
    Lexeme {
        line,
        token,
        rest: &text[end..],
    }
}

/// Whether a byte is a space, a tab, a line feed or a carriage return, or begins a comment.
fn is_skipped(b: u8) -> bool
    ensures { result ≡ is_skipped b }
{
    b == b' ' || b == b'\t' || b == b'\n' || b == b'\r' || b == b'#'
}

/// The number of the line of what follows a byte of the line with this number.
fn line_after(line: u32, b: u8) -> u32
    requires { line + 1 < 2 ^ 32 }
    ensures value { result ≡ line_after line b }
    ensures bound { result ≤ line + 1 }
{
    if b == b'\n' { line + 1 } else { line }
}

/// The first token of a text whose first line has this number.
pub fn next_token(line: u32, text: &[u8]) -> Option<Lexeme<'_>>
    requires { line + length text.now < 2 ^ 32 }
    ensures none { IfNone result (tokens 0 line text.now ≡ []) }
    ensures some { IfSome result (λ l. tokens 0 line text.now
        ≡ record { line = l.line; token = token_of l.token } ∷ tokens 0 l.line l.rest.now) }
    ensures shorter { IfSome result (λ l. l.line + length l.rest.now < line + length text.now) }
    ensures suffix { IfSome result (λ l. IsSuffix text.now l.rest.now) }
    ensures before { IfSome result (λ l. IsBefore text.now l.rest.now l.token) }
{
    let mut line = line;
    let mut rest = text;
    while !rest.is_empty() {
        let first = rest[0];
        if !is_skipped(first) {
            return Some(first_lexeme(line, rest));
        }
        line = line_after(line, first);
        rest = after_skipped(rest);
    }
    None
}
