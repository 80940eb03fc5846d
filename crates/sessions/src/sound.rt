//! The WAV files that follow from a report: what the card played is the saturated sum of what the segments place, and what a reader
//! recorded is the captured frames of its runs. Each channel of a client's file is the card's of the same number, and likewise of a reader.
use crate::case::{Case, Sound, find};
use crate::content::number;
use crate::refusal::Refusal;
use crate::wav::{append_wav, channels_in, is_canonical, sample_at, samples_in};
use std::alloc::{AllocError, Global};

/// More frames than a run can play.
const MOST_FRAMES: usize = 4_194_304;

/// The words of a line.
fn words_of(alloc: Global, line: &str) -> Result<Vec<&str>, AllocError> {
    let mut words = Vec::new(alloc);
    for word in line.split(' ') {
        words.push(word)?;
    }
    Ok(words)
}

/// The number that the word at this place is.
fn number_at(words: &[&str], place: usize) -> Result<usize, Refusal> {
    match words.get(place) {
        Some(word) => Ok(number(word)? as usize),
        None => Err("a line of the report is too short".into()),
    }
}

/// The words of the first line that begins with these two words, or with the first where the second is empty. Where there is none, it
/// says why a file can't be worked out.
fn line_of<'a>(
    alloc: Global,
    text: &'a str,
    (first, second): (&str, &str),
    why: &'static str,
) -> Result<Vec<&'a str>, Refusal> {
    for line in text.lines() {
        let words = words_of(alloc, line)?;
        if words.first() == Some(&first) && (second.is_empty() || words.get(1) == Some(&second)) {
            return Ok(words);
        }
    }
    Err(why.into())
}

/// The first frame that was played, and how many.
fn played(alloc: Global, report: &str) -> Result<(usize, usize), Refusal> {
    let words = line_of(
        alloc,
        report,
        ("played", ""),
        "the report has no line played",
    )?;
    let (first, count) = (number_at(&words, 1)?, number_at(&words, 2)?);
    if count > MOST_FRAMES {
        return Err("the report plays more than a run can".into());
    }
    Ok((first, count))
}

/// The script of a call `run SCRIPT OUT`.
fn script_of(case: &Case) -> Result<&str, Refusal> {
    let Some(name) = case.words.get(1) else {
        return Err("the call names no script".into());
    };
    match str::from_utf8(find(&case.files, name).unwrap_or(&[])) {
        Ok(script) => Ok(script),
        Err(_) => Err("the script is no text".into()),
    }
}

/// Refuses a line whose channels or samples aren't the file's own.
fn refuse_keys(words: &[&str]) -> Result<(), Refusal> {
    if words.contains(&"bindings") || words.contains(&"plug") {
        return Err("a client or reader with bindings or a plug can't be checked".into());
    }
    Ok(())
}

/// The samples of a client's file.
fn client_samples<'a>(
    alloc: Global,
    case: &'a Case,
    sound: &Sound,
    client: &str,
) -> Result<&'a [u8], Refusal> {
    let words = line_of(
        alloc,
        script_of(case)?,
        ("client", client),
        "a segment is of no client",
    )?;
    refuse_keys(&words)?;
    let name = words.get(2).copied().unwrap_or("");
    let file = find(&case.files, name.as_bytes()).ok_or("a client has no file")?;
    if !is_canonical(alloc, file, sound.channels, sound.rate)? {
        return Err("a client's file has other channels or another rate".into());
    }
    Ok(samples_in(file))
}

/// Adds so many samples of a client, from one of its numbers on, to the sums from one of theirs on.
fn add_samples(
    sums: &mut [i32],
    samples: &[u8],
    source: usize,
    target: usize,
    count: usize,
) -> Result<(), Refusal> {
    for number in 0..count {
        let sample = sample_at(samples, source.wrapping_add(number));
        let sample = sample.ok_or("a segment has more frames than its client's file")?;
        if let Some(sum) = sums.get_mut(target.wrapping_add(number)) {
            *sum = sum.wrapping_add(i32::from(sample));
        }
    }
    Ok(())
}

/// Adds what a segment places: its words are `segment`, the client, the frame of its file, the card's frame, the whole frames, and the
/// channels of a frame more.
fn add_segment(
    alloc: Global,
    case: &Case,
    sound: &Sound,
    sums: &mut [i32],
    words: &[&str],
    first: usize,
) -> Result<(), Refusal> {
    let samples = client_samples(alloc, case, sound, words.get(1).copied().unwrap_or(""))?;
    let channels = usize::from(sound.channels);
    let source = number_at(words, 2)?.wrapping_mul(channels);
    let frame = number_at(words, 3)?.checked_sub(first);
    let target = frame
        .ok_or("a segment begins before the card plays")?
        .wrapping_mul(channels);
    let count = number_at(words, 4)?.wrapping_mul(channels);
    let count = count.wrapping_add(number_at(words, 5)?);
    add_samples(sums, samples, source, target, count)
}

/// Appends the sums, saturated.
fn append_saturated(samples: &mut Vec<u8>, sums: &[i32]) -> Result<(), AllocError> {
    for sum in sums {
        let sample = i16::try_from((*sum).clamp(-32768, 32767)).unwrap_or(0);
        samples.extend_from_slice(&sample.to_le_bytes())?;
    }
    Ok(())
}

/// The samples that the segments place.
fn mixed_samples(
    alloc: Global,
    case: &Case,
    sound: &Sound,
    report: &str,
) -> Result<Vec<u8>, Refusal> {
    let (first, count) = played(alloc, report)?;
    let mut sums = Vec::new(alloc);
    sums.resize(count.wrapping_mul(usize::from(sound.channels)), 0)?;
    for line in report.lines() {
        if line.starts_with("segment ") {
            let words = words_of(alloc, line)?;
            add_segment(alloc, case, sound, &mut sums, &words, first)?;
        }
    }
    let mut samples = Vec::new(alloc);
    append_saturated(&mut samples, &sums)?;
    Ok(samples)
}

/// The captured file of a script, which is empty where it has none.
fn captured_file<'a>(alloc: Global, case: &'a Case) -> Result<&'a [u8], Refusal> {
    let words = line_of(
        alloc,
        script_of(case)?,
        ("card", ""),
        "the script has no card",
    )?;
    let Some(place) = words.iter().position(|word| *word == "capture") else {
        return Ok(&[]);
    };
    let name = words.get(place.wrapping_add(1)).copied().unwrap_or("");
    Ok(find(&case.files, name.as_bytes()).ok_or("the captured file isn't there")?)
}

/// Appends a captured frame. A channel or frame that the captured file doesn't have is silent.
fn append_frame(
    samples: &mut Vec<u8>,
    captured: &[u8],
    channels: u16,
    frame: usize,
) -> Result<(), AllocError> {
    let width = channels_in(captured);
    let first = frame.wrapping_mul(usize::from(width));
    for channel in 0..channels {
        let sample = sample_at(
            samples_in(captured),
            first.wrapping_add(usize::from(channel)),
        );
        let sample = if channel < width {
            sample.unwrap_or(0)
        } else {
            0
        };
        samples.extend_from_slice(&sample.to_le_bytes())?;
    }
    Ok(())
}

/// Appends the captured frames of a run: its words are `run`, the reader, the first frame and how many.
fn append_captured(
    samples: &mut Vec<u8>,
    captured: &[u8],
    channels: u16,
    words: &[&str],
    first: usize,
) -> Result<(), Refusal> {
    let from = number_at(words, 2)?
        .checked_sub(first)
        .ok_or("a run begins before the card plays")?;
    for number in 0..number_at(words, 3)?.min(MOST_FRAMES) {
        append_frame(samples, captured, channels, from.wrapping_add(number))?;
    }
    Ok(())
}

/// Refuses a reader whose channels aren't the card's of the same numbers.
fn refuse_reader(alloc: Global, case: &Case, reader: &str) -> Result<(), Refusal> {
    let words = line_of(
        alloc,
        script_of(case)?,
        ("reader", reader),
        "the script has no such reader",
    )?;
    refuse_keys(&words)
}

/// Appends the captured frames of a line of the report, where it is a run of the reader.
fn append_line(
    alloc: Global,
    samples: &mut Vec<u8>,
    captured: &[u8],
    channels: u16,
    reader: &str,
    line: &str,
    first: usize,
) -> Result<(), Refusal> {
    let words = words_of(alloc, line)?;
    if words.first() == Some(&"run") && words.get(1) == Some(&reader) {
        append_captured(samples, captured, channels, &words, first)?;
    }
    Ok(())
}

/// The samples that a reader recorded.
fn recorded_samples(
    alloc: Global,
    case: &Case,
    sound: &Sound,
    reader: &str,
    report: &str,
) -> Result<Vec<u8>, Refusal> {
    refuse_reader(alloc, case, reader)?;
    let (first, _) = played(alloc, report)?;
    let captured = captured_file(alloc, case)?;
    let mut samples = Vec::new(alloc);
    for line in report.lines() {
        append_line(
            alloc,
            &mut samples,
            captured,
            sound.channels,
            reader,
            line,
            first,
        )?;
    }
    Ok(samples)
}

/// The WAV file that follows from a report.
pub(crate) fn sound_file(
    alloc: Global,
    case: &Case,
    sound: &Sound,
    report: &str,
) -> Result<Vec<u8>, Refusal> {
    let samples = match &sound.reader {
        Some(reader) => recorded_samples(alloc, case, sound, reader.as_str(), report)?,
        None => mixed_samples(alloc, case, sound, report)?,
    };
    let mut file = Vec::new(alloc);
    append_wav(&mut file, sound.channels, sound.rate, &samples)?;
    Ok(file)
}
