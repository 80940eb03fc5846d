//! The lines of a report's text.
ghost use Rattle.std.specs.Prelude.{◌≡◌, ◌<◌, ◌==◌, length, option_map, IfSome};
ghost use Rattle.std.specs.List.{position};
ghost use Rattle.text_words.specs.Lexing.{first_and_rest};
ghost use Rattle.lab_report.specs.Words.{lines_of};
ghost use Rattle.text_words.specs.Word.{is_feed};

/// Where a line feed is first.
fn feed_place(text: &[u8]) -> Option<usize>
    ensures { result ≡ position is_feed text.now }
{
    text.iter().position(|b| *b == b'\n')
}

/// The first line of a text with its line feed, which the last may lack, and the text after it.
pub fn first_line(text: &[u8]) -> Option<(&[u8], &[u8])>
    ensures line { option_map (λ l. (l.0.now, lines_of l.1.now)) result
        ≡ first_and_rest (lines_of text.now) }
    ensures shorter { IfSome result (λ l. length l.1.now < length text.now) }
{
    if text.is_empty() {
        return None;
    }
    match feed_place(text) {
        Some(end) => Some((&text[..end + 1], &text[end + 1..])),
        None => Some((text, &text[text.len()..])),
    }
}
