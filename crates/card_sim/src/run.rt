//! The frames of one run of a duplex card.
ghost use Rattle.std.specs.Prelude.{◌≡◌, ◌+◌, ◌≤◌, true, [], ◌∷◌};
ghost use Rattle.card_player.specs.Plays.{HasFrame, HasRoom, IsDue, frame_of, geometry_of, period_at, seat_of};
ghost use Rattle.sum_table.specs.Players.{position_of_player};
ghost use Rattle.card_sim.specs.Moments.{frame_moments, moments_of, period_moments, position_of_writer, publish_moments};
ghost use Rattle.card_sim.specs.Runs.{CanRun, PublishesBoth, RunsFrame, RunsFrames};
ghost use Rattle.card_sim.specs.Steps.{AreInStep};

use crate::watch::Watch;
use card_player::CardPlayer;
use snoop_table::WriterSeat;

/// Runs for so many frames, which both buffers hold and both rings still have.
pub(crate) fn run_frames<W: Watch>(
    player: &mut CardPlayer<'_>,
    writer: &mut WriterSeat<'_>,
    period: u32,
    captured: &[i16],
    out: &mut [i16],
    frames: usize,
    watch: &mut W,
)
    requires { CanRun player.old writer.old period frames captured.now out.old }
    ensures runs { RunsFrames true player.old writer.old player.new writer.new period frames
        captured.now out.old out.new }
    ensures watched { W.saw watch.old watch.new
        (moments_of period (frame_of player.old) (position_of_writer writer.old) frames) }
{
    // For one channel there is a loop of its own in the machine code, without one over the channels.
    match player.geometry().channels {
        1 => run_all(player, writer, period, captured, out, frames, 1, watch),
        channels => run_all(
            player, writer, period, captured, out, frames, channels, watch,
        ),
    }
}

/// Runs for so many frames of so many channels, in the code of its caller, which may know the number of channels.
#[inline(always)]
fn run_all<W: Watch>(
    player: &mut CardPlayer<'_>,
    writer: &mut WriterSeat<'_>,
    period: u32,
    captured: &[i16],
    out: &mut [i16],
    frames: usize,
    channels: u8,
    watch: &mut W,
)
    requires channels { channels ≡ (geometry_of player.old).channels }
    requires can_run { CanRun player.old writer.old period frames captured.now out.old }
    ensures runs { RunsFrames true player.old writer.old player.new writer.new period frames
        captured.now out.old out.new }
    ensures watched { W.saw watch.old watch.new
        (moments_of period (frame_of player.old) (position_of_writer writer.old) frames) }
{
    let mut due = player.next_period(period);
    for frame in 0..frames {
        let at = frame * channels as usize;
        run_frame(player, writer, captured, out, at, channels, watch);
        due = publish_period(player, writer, period, due, watch);
    }
    if !player.has_ended_period(period, frames) {
        publish(player, writer, watch);
    }
}

/// Captures and plays one frame, of the samples from an index of both buffers on: first it is stored, then it is taken.
#[inline(always)]
fn run_frame<W: Watch>(
    player: &mut CardPlayer<'_>,
    writer: &mut WriterSeat<'_>,
    captured: &[i16],
    out: &mut [i16],
    at: usize,
    channels: u8,
    watch: &mut W,
)
    requires channels { channels ≡ (geometry_of player.old).channels }
    requires in_step { AreInStep player.old writer.old }
    requires captured { HasRoom player.old at captured.now }
    requires room { HasRoom player.old at out.old }
    requires fits { HasFrame player.old }
    ensures runs { RunsFrame player.old writer.old player.new writer.new at
        captured.now out.old out.new }
    ensures watched { W.saw watch.old watch.new
        (frame_moments (frame_of player.old) (position_of_player (seat_of player.old))
        (position_of_writer writer.old)) }
{
    let Ok(()) = writer.store_frame(&captured[at..at + channels as usize]) else {
        unreachable!()
    };
    watch.see(player, writer);
    player.take_frame_of(out, at, channels);
    watch.see(player, writer);
}

/// Publishes the positions of both rings where they are a multiple of the period, of which it is given the next one. Answers the
/// next one past them.
#[inline(always)]
fn publish_period<W: Watch>(
    player: &mut CardPlayer<'_>,
    writer: &mut WriterSeat<'_>,
    period: u32,
    due: u64,
    watch: &mut W,
) -> u64
    requires period { 1 ≤ period }
    requires in_step { AreInStep player.old writer.old }
    requires due { IsDue period (frame_of player.old) due }
    ensures publishes { PublishesBoth player.old writer.old player.new writer.new
        (period_at period (frame_of player.old)) }
    ensures watched { W.saw watch.old watch.new
        (period_moments period (frame_of player.old) (position_of_writer writer.old)) }
    ensures due { IsDue period (frame_of player.new + 1) result }
{
    if player.next().frame != due {
        return due;
    }
    publish(player, writer, watch);
    due + period as u64
}

/// Publishes the position of the sum ring and then that of the snoop ring.
#[inline(always)]
fn publish<W: Watch>(player: &mut CardPlayer<'_>, writer: &mut WriterSeat<'_>, watch: &mut W)
    requires { AreInStep player.old writer.old }
    ensures publishes { PublishesBoth player.old writer.old player.new writer.new
        (frame_of player.old ∷ []) }
    ensures watched { W.saw watch.old watch.new
        (publish_moments (frame_of player.old) (position_of_writer writer.old)) }
{
    player.publish();
    watch.see(player, writer);
    writer.publish();
    watch.see(player, writer);
}
