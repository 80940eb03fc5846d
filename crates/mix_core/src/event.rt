//! The events of a core and its replies.

/// What the player took: the value that frame `frame` plays in channel `channel`.
#[derive(Clone, Copy, Debug, PartialEq, Eq)]
pub struct Taken {
    pub frame: u64,
    pub channel: u8,
    pub value: i16,
}

/// One thing that happens to a core: a member adds a sample at a frame (by its absolute number) and channel, or withdraws it
/// again, the player takes the next word, or the player publishes its position.
#[derive(Clone, Copy, Debug, PartialEq, Eq)]
pub enum Event {
    Add {
        member: u32,
        frame: u64,
        channel: u8,
        sample: i16,
    },
    Withdraw {
        member: u32,
        frame: u64,
        channel: u8,
        sample: i16,
    },
    Take,
    Publish,
}

/// What a core replies to an event.
///
/// - To an add: `Outside` exactly where the member or the channel is out of range, the frame and channel are before the
///   member's cursor (the place right after its last add that was in time), the frame's lap is 4294967295 or more, or the
///   frame is the ring's length or more past the position.
/// - To a withdrawal: `Outside` exactly where the member or the channel is out of range, the member's last standing add isn't
///   this sample at this frame and channel, or these are before the member's floor.
/// - To any other add or withdrawal: `Late` exactly where its frame and channel were taken before, and else `In`, where the
///   sample was added or withdrawn.
/// - To a take: `Took` with the value, or `LapEnd` exactly where the next frame's lap is 4294967295.
/// - To a publication: `Published` with the position, the number of the first frame that is not wholly taken.
#[derive(Clone, Copy, Debug, PartialEq, Eq)]
pub enum Reply {
    In,
    Late,
    Outside,
    Took { frame: u64, channel: u8, value: i16 },
    Published(u64),
    LapEnd,
}
