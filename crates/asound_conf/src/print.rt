//! The text of a device.
ghost use Rattle.std.specs.Prelude.{◌≡◌, ◌++◌, IfOk, OnOk, string_bytes};
ghost use Rattle.asound_conf.specs.Text.{card_line, channels_line, device_text, kind_text, type_line};

use crate::plugin::{Device, DeviceKind};
use bindings::Bindings;
use std::alloc::{AllocError, Global};

/// The name of a type of device.
fn kind_text(kind: DeviceKind) -> &'static str
    ensures { result.now ≡ kind_text kind }
{
    match kind {
        DeviceKind::Dmix => "dmix",
        DeviceKind::Dsnoop => "dsnoop",
        DeviceKind::Dshare => "dshare",
    }
}

/// The lines of a device's type and card.
fn first_lines(alloc: Global, device: &Device) -> Result<String, AllocError>
    ensures { IfOk result (λ text. string_bytes text
        ≡ type_line device.now.kind ++ card_line device.now) }
{
    let kind = kind_text(device.kind);
    let channels = device.channels;
    let rate = device.rate;
    let period = device.period;
    let ring = device.ring;
    format!(in alloc;
        "type {kind}\ncard channels {channels} rate {rate} period {period} ring {ring}\n"
    )
}

/// Appends the line of a device's bindings: their card channels, joined by commas.
fn push_bindings(text: &mut String, bindings: &Bindings) -> Result<(), AllocError>
    ensures { OnOk result (string_bytes text.new
        ≡ string_bytes text.old ++ channels_line bindings.now) }
{
    let channels = bindings.len();
    let first = bindings.card_channel(0);
    write!(text, "bindings {first}")?;
    for client in 1..channels {
        let channel = bindings.card_channel(client);
        write!(text, ",{channel}")?;
    }
    text.push_str("\n")
}

/// The text of a device, in lines that each end with a line feed: `type KIND`, with dmix, dsnoop or dshare;
/// `card channels C rate R period P ring N`, as a script's card line; and, where the device has bindings, `bindings`
/// and the card channels of its channels in order, joined by commas.
pub fn print_device(alloc: Global, device: &Device) -> Result<String, AllocError>
    ensures { IfOk result (λ text. string_bytes text ≡ device_text device.now) }
{
    let mut text = first_lines(alloc, device)?;
    if let Some(bindings) = device.bindings {
        push_bindings(&mut text, &bindings)?;
    }
    Ok(text)
}
