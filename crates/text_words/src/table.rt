//! Tables of words, and what each word means.
ghost use Rattle.std.specs.Prelude.{◌≡◌, map};
ghost use Rattle.text_words.specs.Table.{row_of};

/// What the first row of this word has.
pub fn row_of<T: Copy>(rows: &[(&[u8], T)], word: &[u8]) -> Option<T>
    ensures { result ≡ row_of (map (λ row. (row.0.now, row.1)) rows.now) word.now }
{
    let mut rest = rows;
    while let [row, more @ ..] = rest {
        if word == row.0 {
            return Some(row.1);
        }
        rest = more;
    }
    None
}
