//! What is converted, as the program's words say.
ghost use Rattle.std.specs.Prelude.{◌≤◌, length, IfSome};

use plug_chain::Wide;

/// A conversion, the bytes of a piece, and how often it is done.
#[derive(Drop)]
pub(crate) struct Job {
    pub(crate) from: Wide,
    pub(crate) inputs: u8,
    pub(crate) outputs: u8,
    pub(crate) in_rate: u32,
    pub(crate) out_rate: u32,
    pub(crate) piece: usize,
    pub(crate) rounds: u32,
    ghost some_input: { 1 ≤ inputs },
    ghost few_inputs: { inputs ≤ 8 },
    ghost some_output: { 1 ≤ outputs },
    ghost few_outputs: { outputs ≤ 8 },
    ghost some_in_rate: { 1 ≤ in_rate },
    ghost some_out_rate: { 1 ≤ out_rate },
    ghost most_out_rate: { out_rate ≤ 192000 },
    ghost some_piece: { 1 ≤ piece },
}

/// The format of a name.
fn format(name: &str) -> Option<Wide> {
    match name {
        "s8" => Some(Wide::S8),
        "u8" => Some(Wide::U8),
        "s16le" => Some(Wide::S16Le),
        "s16be" => Some(Wide::S16Be),
        "s24" => Some(Wide::S24Packed),
        "s32" => Some(Wide::S32Le),
        _ => None,
    }
}

/// A number of channels.
fn channels(word: &str) -> Option<u8>
    ensures { IfSome result (λ n. (1 ≤ n) × (n ≤ 8)) }
{
    let count = word.parse::<u8>().ok()?;
    if 1 <= count && count <= 8 {
        Some(count)
    } else {
        None
    }
}

/// A number from 1 to `most`.
fn number(word: &str, most: u32) -> Option<u32>
    ensures { IfSome result (λ n. (1 ≤ n) × (n ≤ most)) }
{
    let count = word.parse::<u32>().ok()?;
    if 1 <= count && count <= most {
        Some(count)
    } else {
        None
    }
}

impl Job {
    /// The job of the words after the names of the two files.
    pub(crate) fn read(words: &[String]) -> Option<Job>
        requires { 9 ≤ length words.now }
    {
        Some(Job {
            from: format(words[2].as_str())?,
            inputs: channels(words[3].as_str())?,
            outputs: channels(words[4].as_str())?,
            in_rate: number(words[5].as_str(), u32::MAX)?,
            out_rate: number(words[6].as_str(), 192000)?,
            piece: number(words[7].as_str(), u32::MAX)? as usize,
            rounds: number(words[8].as_str(), u32::MAX)?,
        })
    }
}
