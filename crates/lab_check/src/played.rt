//! The samples that a card played, by what a report's segments placed.
ghost use Rattle.std.specs.Int.{int_wrap, w64};
ghost use Rattle.std.specs.List.{range_with_len};
ghost use Rattle.std.specs.Prelude.{◌≡◌, ◌<◌, ◌^◌, ◌+◌, ◌*◌, ◌++◌, All, FitsSigned, IfOk, OnOk, List, true, ℕ, ℤ, map, replicate, length, pos};
ghost use Rattle.lap_word.specs.Clamp.{clamp_of};
ghost use Rattle.mix_core.specs.declared.port.Entry.{Entry};
ghost use Rattle.lab_lines.specs.Limits.{IsScript};
ghost use Rattle.lab_run.specs.LabRun.{mixed_at};
ghost use Rattle.lab_check.specs.Defects.{HasTestedSegments};
ghost use Rattle.lab_check.specs.Samples.{played_samples};
ghost use Rattle.lab_check.specs.Segments.{is_right_segment};
ghost use Rattle.lab_check.specs.Sums.{IsSummed, TotalsFit};

use crate::samples::samples_are_of_16_bits;
use crate::sums::add_parts;
use lab_lines::{Report, Script};
use run_laws::segments_place_once;
use std::alloc::{AllocError, Global};
use wav_io::Wav;

/// The sample that a total is played as, of which a sum is given that is the total up to a multiple of 2^64; the total itself is
/// of 64 bits.
fn saturate(sum: i64) -> i16
    ensures { (total : ℤ) → FitsSigned w64 total → int_wrap w64 sum ≡ int_wrap w64 total
        → result ≡ clamp_of total }
{
    if sum < -32768 {
        -32768
    } else if sum > 32767 {
        32767
    } else {
        sum as i16
    }
}

/// Appends the samples that some sums are played as.
fn push_saturated(played: &mut Vec<i16>, sums: &[i64]) -> Result<(), AllocError>
    ensures { (channels from : ℕ) (es : List Entry) → TotalsFit es
        → IsSummed channels from es (replicate (length sums.now) (pos 0)) sums.now
        → OnOk result (played.new.items ≡ played.old.items
        ++ map (mixed_at channels from es) (range_with_len 0 (length sums.now))) }
{
    for sum in sums {
        played.push(saturate(*sum))?;
    }
    Ok(())
}

/// How many frames of the card are summed at a time: so few that their sums stay in a processor's cache.
const WINDOW: u64 = 65_536;

/// The samples that the card played, window by window.
fn mixed_report(
    alloc: Global,
    script: &Script,
    wavs: &[Wav],
    report: &Report,
) -> Result<Vec<i16>, AllocError>
    requires script { IsScript script.now }
    requires right { All (λ segment. is_right_segment script.now wavs.now segment ≡ true)
        report.now.segments }
    requires end { report.now.first + report.now.frames < 2 ^ 62 }
    requires few { length report.now.segments < 2 ^ 32 }
    ensures { IfOk result (λ played. played.items
        ≡ played_samples script.now wavs.now report.now) }
{
    segments_place_once();
    samples_are_of_16_bits(wavs);
    let channels = script.card.channels;
    let mut played = Vec::new(alloc);
    let mut done = 0;
    while done < report.frames {
        let frames = (report.frames - done).min(WINDOW);
        let mut sums = vec![in alloc; 0; (frames * u64::from(channels)) as usize]?;
        add_parts(
            &mut sums,
            report.first + done,
            frames,
            script,
            wavs,
            report.segments.as_slice(),
        );
        push_saturated(&mut played, &sums)?;
        done += frames;
    }
    Ok(played)
}

/// The samples that the card played, interleaved, as a report says that `tested_report` gave for this script and these files: at
/// each frame and channel the saturated sum of what the report's segments placed there. `wavs` are the clients' sounds, in the
/// order of the script's lines. They are so few that a WAV file holds them.
///
/// The only error is want of memory. It takes time for each sample that a segment places, and for each segment once in 65,536
/// frames that the card plays. A report of a run places each frame of a file about once, while in one that is made by hand each
/// segment may place a whole file.
pub fn played_samples(
    alloc: Global,
    script: &Script,
    wavs: &[Wav],
    report: &Report,
) -> Result<Vec<i16>, AllocError>
    requires script { IsScript script.now }
    requires tested { HasTestedSegments script.now wavs.now report.now }
    ensures samples { IfOk result (λ played. played.items
        ≡ played_samples script.now wavs.now report.now) }
    ensures few { IfOk result (λ played. length played.items * 2 + 36 < 2 ^ 32) }
{
    mixed_report(alloc, script, wavs, report)
}
