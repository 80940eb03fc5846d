//! What others do between the steps of a seat. A lock round the ring would be held from the first step of a placement to its last, so
//! that those who go on in the middle of it would wait for ever.
ghost use Rattle.std.specs.Prelude.{◌≡◌};
ghost use Rattle.sum_table.specs.Rings.{GaveNone, key_of_ring};

use super::*;
use mix_core::{Gate, Pass, Position, StepKind, can_place};

// A gate that lets others go on before a placement's first exchange: a seat places 10000 at frame 5, and the player takes so many
// words. It counts its asks, and keeps what the player took last.
struct Others<'a> {
    seat: MixSeat<'a>,
    player: PlayerSeat<'a>,
    words: u32,
    taken: i16,
    asks: u32,
}

// One call wherever it is let go.
impl Drop for Others<'_> {
    fn drop(self) {
        let Others {
            seat: _,
            player: _,
            words: _,
            taken: _,
            asks: _,
        } = self;
    }
}

impl Others<'_> {
    // The player takes so many words.
    fn take(&mut self, words: u32) {
        for _ in 0..words {
            let Ok(word) = self.player.take_word() else {
                return;
            };
            self.taken = word.value;
        }
    }
}

impl Gate for Others<'_> {
    ghost use Rattle.std.specs.Prelude.{⊤};

    ghost stops = { λ _. 0 };

    ghost asked = { λ _ _ _ _. ⊤ };

    ghost asked_composes = { record { none = λ _. tt; joined = λ _ _ _ _ _ _ _ _. tt } };

    fn pass(&mut self, step: StepKind) -> Pass {
        self.asks = self.asks.wrapping_add(1);
        if step == StepKind::Exchange {
            let _ = try_place(&mut self.seat, 5, 0, 10000);
            self.take(self.words);
        }
        Pass::Go
    }
}

// A seat and others of a ring with two places. In the middle of its placement so many words are taken.
fn two_seats(ring: &mut SumRing, words: u32) -> (MixSeat<'_>, Others<'_>)
    requires gave_none { GaveNone ring.old }
    requires places { (key_of_ring ring.old).places ≡ 2 }
{
    let (player, mut own) = ring.seats();
    let seat = own.split(1, 1);
    let others = Others {
        seat,
        player,
        words,
        taken: 0,
        asks: 0,
    };
    (own, others)
}

// Places a sample at a frame where the seat may, as seen at run time, before a gate.
fn place_before(
    seat: &mut MixSeat<'_>,
    others: &mut Others<'_>,
    frame: u64,
    sample: i16,
) -> Option<Placed> {
    if !can_place(seat, frame, 0) {
        return None;
    }
    seat.place(others, frame, 0, sample).ok()
}

// 30000 and 10000 are summed and saturated, though the second one came in the middle of the first one's placement, which made its
// exchange again: it asked for a look, an exchange and a further one.
#[test]
fn a_seat_places_in_the_middle_of_a_placement(rt: HostRuntime) -> Result<(), PcmError> {
    let mut ring = new_ring(rt.alloc(), 1, 2)?;
    let (mut own, mut others) = two_seats(&mut ring, 0);
    assert!(rt; place_before(&mut own, &mut others, 5, 30000) == Some(Placed::In));
    assert!(rt; others.asks == 3);
    others.take(6);
    assert!(rt; others.taken == 32767);
    Ok(())
}

// The sixth word, of frame 5, is taken in the middle of a placement there: this finds the empty word of lap 1, by its exchange.
#[test]
fn a_word_is_taken_in_the_middle_of_a_placement(rt: HostRuntime) -> Result<(), PcmError> {
    let mut ring = new_ring(rt.alloc(), 1, 2)?;
    let (mut own, mut others) = two_seats(&mut ring, 6);
    let late = Placed::Late { seen: 4303355904 };
    assert!(rt; place_before(&mut own, &mut others, 5, 30000) == Some(late));
    assert!(rt; others.asks == 2 && others.taken == 10000);
    Ok(())
}

// Ten words are taken and the position is published; then the word of frame 7 is the empty one of lap 1.
#[test]
fn a_placement_at_a_taken_frame_is_late(rt: HostRuntime) -> Result<(), PcmError> {
    let mut ring = new_ring(rt.alloc(), 1, 2)?;
    let (mut own, mut others) = two_seats(&mut ring, 0);
    others.take(10);
    others.player.publish();
    let position = Position {
        frame: 10,
        gone: false,
    };
    let before = own.cursor();
    assert!(rt; own.position(&mut NeverStops) == Ok(position));
    let late = Placed::Late { seen: 4303355904 };
    assert!(rt; try_place(&mut own, 7, 0, 1) == Some(late));
    assert!(rt; own.cursor() == before);
    Ok(())
}
