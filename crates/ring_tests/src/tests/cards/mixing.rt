//! Random events at a sum ring between threads and at a core: both give the same answers.
ghost use Rattle.std.specs.Prelude.{[], ◌∷◌, Ok, IfOk};
ghost use Rattle.mix_core.specs.Laid.{an_add};
ghost use Rattle.mix_core.specs.Port.{OnWhole, ended_of};
ghost use Rattle.sum_table.specs.Seats.{SeatLaid, member_of};

use super::dice::Dice;
use super::{LAST_LAPS, MONO, STEREO, WIDE};
use mix_core::{Core, Event, MixPort, NeverStops, Placed, Reply, can_place};
use snd_base::{Cursor, Geometry, PcmError};
use std::alloc::Global;
use std::process::Abort;
use sum_table::{MixSeat, PlayerSeat};

/// How many events happen at a ring.
const EVENTS: usize = 3000;

/// An add that is tried: by one of two members, at a frame and channel.
#[derive(Clone, Copy)]
struct Add {
    member: u32,
    frame: u64,
    channel: u8,
    sample: i16,
}

impl Add {
    fn event(self) -> Event {
        Event::Add {
            member: self.member,
            frame: self.frame,
            channel: self.channel,
            sample: self.sample,
        }
    }

    /// The withdrawal of the sample that was added.
    fn withdrawal(self) -> Event {
        Event::Withdraw {
            member: self.member,
            frame: self.frame,
            channel: self.channel,
            sample: self.sample,
        }
    }
}

/// Whether a seat may place a sample, as seen at run time.
fn may_place(seat: &MixSeat<'_>, add: Add) -> bool {
    can_place(seat, add.frame, add.channel) && seat.geometry().lap(add.frame) < 4294967295
}

/// Places a sample where the seat may, as seen at run time, and refuses elsewhere, with `BadState`.
fn try_place(
    seat: &mut MixSeat<'_>,
    frame: u64,
    channel: u8,
    sample: i16,
) -> Result<Placed, PcmError>
    ensures { IfOk result (λ placed. OnWhole (ended_of (Ok placed))
        (SeatLaid seat.old seat.new (an_add (member_of seat.old) frame channel sample ∷ []))) }
{
    if !can_place(seat, frame, channel) || seat.geometry().lap(frame) >= 4294967295 {
        return Err(PcmError::BadState);
    }
    let placed = seat.place(&mut NeverStops, frame, channel, sample)?;
    Ok(placed)
}

/// A core's reply to an add or withdrawal that ended so.
fn reply_of(placed: Placed) -> Reply {
    match placed {
        Placed::In => Reply::In,
        Placed::Late { .. } => Reply::Late,
    }
}

fn place(seat: &mut MixSeat<'_>, add: Add) -> Result<Reply, PcmError> {
    if !may_place(seat, add) {
        return Ok(Reply::Outside);
    }
    let placed = try_place(seat, add.frame, add.channel, add.sample)?;
    Ok(reply_of(placed))
}

fn take(player: &mut PlayerSeat<'_>) -> Reply {
    match player.take_word() {
        Ok(taken) => Reply::Took {
            frame: taken.frame,
            channel: taken.channel,
            value: taken.value,
        },
        Err(_) => Reply::LapEnd,
    }
}

/// Places a sample, and withdraws it after two words were taken. The replies are those to the add, the takes and the withdrawal.
fn place_and_withdraw(
    seat: &mut MixSeat<'_>,
    player: &mut PlayerSeat<'_>,
    add: Add,
) -> Result<[Reply; 4], PcmError> {
    if !may_place(seat, add) {
        return Ok([Reply::Outside, take(player), take(player), Reply::Outside]);
    }
    let placed = try_place(seat, add.frame, add.channel, add.sample)?;
    let (first, second) = (take(player), take(player));
    let Placed::In = placed else {
        return Ok([Reply::Late, first, second, Reply::Outside]);
    };
    if add.frame < seat.floor().first_free(add.channel) {
        return Ok([Reply::In, first, second, Reply::Outside]);
    }
    let withdrawn = seat.withdraw(&mut NeverStops, add.frame, add.channel, add.sample)?;
    Ok([Reply::In, first, second, reply_of(withdrawn)])
}

/// The first word that a member may add to: from its cursor on, and from the position on.
fn first_word(core: &Core, cursor: Cursor) -> Cursor {
    let position = core.position().frame;
    if cursor.frame >= position {
        return cursor;
    }
    Cursor {
        frame: position,
        channel: 0,
    }
}

/// Draws where a member adds: mostly at the first word that it may add to, and now and then at the word that is taken next, in
/// the next frames, before its cursor, or about the end of what it can reach. `None` comes where the core hasn't this member.
fn draw(dice: &mut Dice, core: &Core) -> Option<Add> {
    let geometry = core.geometry();
    let member = dice.below(2) as u32;
    if member >= core.members() {
        return None;
    }
    let cursor = core.cursor(member);
    let first = first_word(core, cursor);
    let channel = dice.below(geometry.channels as u64 + 1) as u8;
    let (frame, channel) = match dice.below(16) {
        0 => (cursor.frame.saturating_sub(1), channel),
        1 => {
            let end = core.position().frame.saturating_add(geometry.frames as u64);
            (end.saturating_sub(dice.below(2)), channel)
        }
        2..=4 => (first.frame.saturating_add(dice.below(4)), channel),
        5..=9 => (core.next().frame, core.next().channel),
        _ => (first.frame, first.channel),
    };
    Some(Add {
        member,
        frame,
        channel,
        sample: dice.sample(),
    })
}

/// How often a reply was in time, late, and outside of what a member may.
#[derive(Default, Drop)]
struct Counts {
    in_time: u32,
    late: u32,
    outside: u32,
}

impl Counts {
    fn count(&mut self, reply: Reply) {
        let count = match reply {
            Reply::In => &mut self.in_time,
            Reply::Late => &mut self.late,
            _ => &mut self.outside,
        };
        *count = count.saturating_add(1);
    }

    fn has_all(&self, least: u32) -> bool {
        self.in_time >= least && self.late >= least && self.outside >= least
    }
}

/// The replies to adds and to withdrawals.
#[derive(Default, Drop)]
struct Tally {
    adds: Counts,
    withdrawals: Counts,
}

/// The seats of a ring with two members.
struct Seats<'a> {
    player: PlayerSeat<'a>,
    first: MixSeat<'a>,
    second: MixSeat<'a>,
}

// One call wherever it is let go.
impl Drop for Seats<'_> {
    fn drop(self) {
        let Seats {
            player: _,
            first: _,
            second: _,
        } = self;
    }
}

impl Seats<'_> {
    fn add(&mut self, add: Add) -> Result<Reply, PcmError> {
        match add.member {
            0 => place(&mut self.first, add),
            _ => place(&mut self.second, add),
        }
    }

    fn add_and_withdraw(&mut self, add: Add) -> Result<[Reply; 4], PcmError> {
        match add.member {
            0 => place_and_withdraw(&mut self.first, &mut self.player, add),
            _ => place_and_withdraw(&mut self.second, &mut self.player, add),
        }
    }

    /// Publishes the position, and answers the one that both members load. Where they load none, or different ones, it is
    /// none of a core's replies.
    fn publish(&mut self) -> Reply {
        self.player.publish();
        let Ok(position) = self.first.position(&mut NeverStops) else {
            return Reply::Outside;
        };
        if self.second.position(&mut NeverStops) != Ok(position) {
            return Reply::Outside;
        }
        Reply::Published(position.frame)
    }
}

/// Lets the same events happen at a core, and says whether its replies are these: not where memory runs out.
fn is_same(alloc: Global, core: &mut Core, events: &[Event], replies: &[Reply]) -> bool {
    match core.run(alloc, events) {
        Ok(of_core) => of_core.as_slice() == replies,
        Err(_) => false,
    }
}

/// Lets an add happen at the seats of a ring and at a core, and says whether their replies are the same: not where the ring's is
/// an error.
fn compare_add(
    alloc: Global,
    core: &mut Core,
    seats: &mut Seats<'_>,
    add: Add,
    counts: &mut Counts,
) -> bool {
    let Ok(reply) = seats.add(add) else {
        return false;
    };
    counts.count(reply);
    is_same(alloc, core, &[add.event()], &[reply])
}

/// The same of an add, two takes and the withdrawal, of which the last reply is counted.
fn compare_withdrawal(
    alloc: Global,
    core: &mut Core,
    seats: &mut Seats<'_>,
    add: Add,
    counts: &mut Counts,
) -> bool {
    let Ok(replies) = seats.add_and_withdraw(add) else {
        return false;
    };
    counts.count(replies[3]);
    let events = [add.event(), Event::Take, Event::Take, add.withdrawal()];
    is_same(alloc, core, &events, &replies)
}

/// Lets a random event, or an add with its withdrawal, happen at the seats of a ring and at a core of its geometry, and says
/// whether their answers are the same.
fn compare_next(
    alloc: Global,
    dice: &mut Dice,
    core: &mut Core,
    seats: &mut Seats<'_>,
    tally: &mut Tally,
) -> bool {
    let Some(add) = draw(dice, core) else {
        return false;
    };
    match dice.below(16) {
        0..=5 => compare_add(alloc, core, seats, add, &mut tally.adds),
        6..=8 => compare_withdrawal(alloc, core, seats, add, &mut tally.withdrawals),
        9..=14 => is_same(alloc, core, &[Event::Take], &[take(&mut seats.player)]),
        _ => is_same(alloc, core, &[Event::Publish], &[seats.publish()]),
    }
}

/// Lets the random events of a seed happen, and says whether all answers are the same and each of them came often.
fn are_same(alloc: Global, seed: u64, core: &mut Core, seats: &mut Seats<'_>) -> bool {
    let mut dice = Dice::new(seed);
    let mut tally = Tally::default();
    for _ in 0..EVENTS {
        if !compare_next(alloc, &mut dice, core, seats, &mut tally) {
            return false;
        }
    }
    tally.adds.has_all(5) && tally.withdrawals.has_all(5)
}

/// Compares a core and a ring of a geometry, with the random events of a seed.
fn compare(rt: &impl Abort, alloc: Global, seed: u64, geometry: Geometry) -> Result<(), PcmError> {
    let mut core = Core::new(alloc, geometry, 2)?;
    let mut ring = super::new_ring(alloc, geometry, 2)?;
    let (player, mut first) = ring.seats();
    let second = first.split(1, 1);
    let mut seats = Seats {
        player,
        first,
        second,
    };
    assert!(rt; are_same(alloc, seed, &mut core, &mut seats), "ring {seed}");
    Ok(())
}

#[test]
fn ring_and_core_give_the_same_answers(rt: HostRuntime) -> Result<(), PcmError> {
    compare(&rt, rt.alloc(), 0, MONO)?;
    compare(&rt, rt.alloc(), 1, STEREO)?;
    compare(&rt, rt.alloc(), 2, WIDE)?;
    compare(&rt, rt.alloc(), 3, LAST_LAPS)
}
