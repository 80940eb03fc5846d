//! What a client with `plug` takes its file as.
ghost use Rattle.std.specs.Prelude.{◌≡◌, IfSome};
ghost use Rattle.lab_lines.specs.Limits.{IsCardLine};
ghost use Rattle.lab_input.specs.Plug.{IsShape, shape_for, wide_of};

use lab_lines::{CardLine, ClientLine};
use plug_chain::Wide;

/// The channels and the rate to which a file is converted.
#[derive(Clone, Copy)]
pub(crate) struct Shape {
    /// Samples per frame.
    pub(crate) channels: u8,
    /// Frames per second (Hz).
    pub(crate) rate: u32,
}

/// To what a client's file is converted, where its line has `plug`: to the card's rate, and to as many channels as the client
/// binds, or the card has where it binds none.
pub(crate) fn shape_for(card: &CardLine, client: &ClientLine) -> Option<Shape>
    requires { IsCardLine card.now }
    ensures value { result ≡ shape_for card.now client.now }
    ensures shape { IfSome result IsShape }
{
    if !client.plug {
        return None;
    }
    let channels = match &client.bindings {
        Some(bindings) => bindings.len(),
        None => card.channels,
    };
    Some(Shape {
        channels,
        rate: card.rate,
    })
}

/// How samples of 8, 16, 24 or 32 bits are stored in a WAV file.
pub(crate) fn wide_of(bits: u16) -> Wide
    ensures { result ≡ wide_of bits }
{
    match bits {
        8 => Wide::U8,
        16 => Wide::S16Le,
        24 => Wide::S24Packed,
        _ => Wide::S32Le,
    }
}
