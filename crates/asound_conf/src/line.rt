//! The lines of a text.
ghost use Rattle.std.specs.Prelude.{◌≡◌, ◌<◌, ◌≤◌, ◌^◌, length, count_by, ◌==◌};
ghost use Rattle.asound_conf.specs.Grammar.{last_line};

/// How many line feeds a text has.
fn count_feeds(text: &[u8]) -> usize
    ensures value { result ≡ count_by (λ b. b == 10) text.now }
    ensures bound { result ≤ length text.now }
{
    text.iter().filter(|b| **b == b'\n').count()
}

/// The number of a text's last line. A line feed at the very end begins no line.
pub fn last_line(text: &[u8]) -> u32
    requires { length text.now < 2 ^ 31 }
    ensures { result ≡ last_line text.now }
{
    if text.is_empty() {
        return 1;
    }
    count_feeds(&text[..text.len() - 1]) as u32 + 1
}
