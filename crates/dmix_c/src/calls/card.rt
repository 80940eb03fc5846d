//! The calls of a card that plays alone, of one that captures too, and of either.
ghost use Rattle.std.specs.Prelude.{◌≡◌, Some, ⊤};
ghost use Rattle.dmix_c.specs.Cards.{HasPlayed, IsUnplugged};
ghost use Rattle.dmix_c.specs.Duplex.{HasRunCard, IsDuplexUnplugged};
ghost use Rattle.dmix_c.specs.Handles.{Closes, OnCard, OnDuplex, OnEitherCard};
ghost use Rattle.dmix_c.specs.Stands.{stands_for};
ghost use Rattle.dmix_c.specs.declared.opened.Kind.TheVariants as kind;

use super::closing::close;
use crate::answers::{BAD_HANDLE, number_of};
use crate::handle::Handle;
use crate::opened::{Kind, Opened};
use std::alloc::Global;

/// Plays as many whole frames as there is room for, interleaved, and publishes the position at each period and at the end.
///
/// The number of frames; -EOVERFLOW exactly where the ring's end comes before, with the frames before it played; -EBADF
/// where the handle isn't one of a card that plays alone, with the samples as they were.
#[unsafe(no_mangle)]
pub extern "C" fn dmix_c_card_play(alloc: Global, card: &mut Handle, out: &mut [i16]) -> i64
    ensures { OnCard (out.new ≡ out.old) (HasPlayed out.old out.new) (stands_for card.old)
        (stands_for card.new) result }
{
    by_handle!(alloc, card, Card(playing) => number_of(playing.play(out)))
}

/// Captures and plays as many frames as both buffers have, interleaved: each captured frame is stored before the mixed one is
/// taken. The positions of both rings are published at each period and at the end, the mix ring's before the capture ring's.
///
/// The number of frames; -EINVAL exactly where the buffers don't have equally many samples, of whole frames, with nothing
/// changed; -EOVERFLOW exactly where the rings' end comes before, with the frames before it captured and played; -EBADF where
/// the handle isn't one of a card that captures, with the samples as they were.
#[unsafe(no_mangle)]
pub extern "C" fn dmix_c_card_run(
    alloc: Global,
    card: &mut Handle,
    captured: &[i16],
    out: &mut [i16],
) -> i64
    ensures { OnDuplex (out.new ≡ out.old) (HasRunCard captured.now out.old out.new)
        (stands_for card.old) (stands_for card.new) result }
{
    by_handle!(alloc, card, Duplex(duplex) => number_of(duplex.run(captured, out)))
}

/// Unplugs the card: from now on each client or reader that loads the position is DISCONNECTED, and answers -ENODEV.
///
/// 0; -EBADF where the handle isn't a card's.
#[unsafe(no_mangle)]
pub extern "C" fn dmix_c_card_unplug(alloc: Global, card: &mut Handle) -> i64
    ensures { OnEitherCard ⊤ IsUnplugged IsDuplexUnplugged (stands_for card.old)
        (stands_for card.new) result }
{
    let Some(mut opened) = card.take(alloc) else {
        return BAD_HANDLE;
    };
    let answer = unplug_card(&mut opened);
    card.put(opened);
    answer
}

fn unplug_card(opened: &mut Opened) -> i64
    ensures { OnEitherCard ⊤ IsUnplugged IsDuplexUnplugged (Some opened.old) (Some opened.new)
        result }
{
    match opened {
        Opened::Card(card) => {
            card.unplug();
            0
        }
        Opened::Duplex(card) => {
            card.unplug();
            0
        }
        _ => BAD_HANDLE,
    }
}

/// Closes a card. Nobody takes frames of its ring any more, and none are captured.
///
/// 0, and the handle is closed; -EBADF where it isn't a card's.
#[unsafe(no_mangle)]
pub extern "C" fn dmix_c_card_free(alloc: Global, card: &mut Handle) -> i64
    ensures { Closes kind.Card (stands_for card.old) (stands_for card.new) result }
{
    close(alloc, card, Kind::Card)
}
