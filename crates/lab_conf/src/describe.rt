//! The lines of the device that a configuration file defines under a name.
ghost use Rattle.std.specs.Prelude.{IfErr, IfOk, string_bytes};
ghost use Rattle.std.specs.Option.{ForSome};
ghost use Rattle.asound_conf.specs.Device.{IsCard};
ghost use Rattle.lab_stop.specs.Causes.{cause};
ghost use Rattle.lab_stop.specs.Effects.{AnswersFrom, OnlyReads};
ghost use Rattle.lab_stop.specs.Stops.{EndsOf, EndsReliably, IsReadStop};
ghost use Rattle.lab_conf.specs.Described.{IsDeviceText, device_in};

use asound_conf::{Device, device, print_device, read_conf};
use lab_shelf::Shelf;
use lab_stop::{Stop, fetch_most};
use std::alloc::Global;

/// One byte more than a configuration may have, so that a longer file is refused as one.
const MOST_FETCHED: u64 = 1_048_577;

/// The lines of the device that the configuration in a file of the shelf defines as `pcm.NAME`, as
/// [`print_device`] prints them. The card's line is a whole script by itself, as `read_script` of the
/// crate `lab_script` accepts it. No file changes.
///
/// # Errors
///
/// - `Read` with the file's name, where the fetch failed; over a reliable shelf only where there is no
///   file of this name.
/// - `Conf` with the line and the cause, where [`read_conf`] refuses the configuration or [`device`]
///   the device.
/// - `Memory`, where memory ran out.
pub fn describe_device<S: Shelf>(
    shelf: &mut S,
    alloc: Global,
    file: &[u8],
    name: &[u8],
) -> Result<String, Stop>
    // The text has the lines of the device, of which the card's line is a whole script.
    ensures lines { IfOk result
        (λ text. IsDeviceText (S.files shelf.old) file.now name.now (string_bytes text)) }

    // It ends as the first cause says that the file gives, but for a failed fetch and for memory.
    ensures cause { ForSome (S.files shelf.old)
        (λ files. EndsOf result (cause (device_in files file.now name.now))) }
    ensures missing { S.is_reliable shelf.old → ForSome (S.files shelf.old)
        (λ files. EndsReliably result (cause (device_in files file.now name.now))) }
    ensures only { IfErr result IsReadStop }

    // What it leaves of the shelf, and that a failed fetch is counted.
    ensures only_reads { OnlyReads S.Shelf result shelf.old shelf.new }
{
    let device = device_in(shelf, alloc, file, name)?;
    let text = print_device(alloc, &device)?;
    Ok(text)
}

/// The device of a name in the configuration in a file of the shelf.
fn device_in<S: Shelf>(
    shelf: &mut S,
    alloc: Global,
    file: &[u8],
    name: &[u8],
) -> Result<Device, Stop>
    ensures device { AnswersFrom S.Shelf (λ d. d) result shelf.old
        (λ files. device_in files file.now name.now) }
    ensures card { IfOk result (λ d. IsCard d.channels d.rate d.period d.ring) }
    ensures only_reads { OnlyReads S.Shelf result shelf.old shelf.new }
{
    let text = fetch_most(shelf, alloc, file, MOST_FETCHED)?;
    let root = read_conf(alloc, &text)?;
    let found = device(&root, name)?;
    Ok(found)
}
