//! The slave: the card whose ring the clients share.
ghost use Rattle.std.specs.Prelude.{◌≡◌, ◌*◌, ◌%◌, ◌≤◌};

/// The card that the spaces of its clients are made for: its channels, its rate in Hz, and its period and its ring in
/// frames (the `slave` of a dmix or dsnoop configuration).
///
/// The channels are from 1 to 8, the rate is from 4000 to 192000, the ring from 64 to 16384. The period is at least 16
/// and at most half the ring, and divides it.
#[derive(Clone, Copy, Debug)]
pub struct Slave {
    pub channels: u8,
    pub rate: u32,
    pub period: u32,
    pub ring: u32,
    ghost some_channels: { 1 ≤ channels },
    ghost few_channels: { channels ≤ 8 },
    ghost rate_least: { 4000 ≤ rate },
    ghost rate_most: { rate ≤ 192000 },
    ghost period_least: { 16 ≤ period },
    ghost period_most: { 2 * period ≤ ring },
    ghost period_divides: { ring % period ≡ 0 },
    ghost ring_least: { 64 ≤ ring },
    ghost ring_most: { ring ≤ 16384 },
}
