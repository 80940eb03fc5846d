//! Sample formats, and buffers of samples: the bytes of a sample, and frames that are copied or
//! silenced in a buffer of any layout.
//!
//! The formats and their numbers are those of ALSA (`snd_pcm_format_t` of alsa/pcm.h). No call takes
//! memory.
#![tactic(auto)]

mod areas;
mod copying;
mod format;
mod laws;
mod sample;
mod silencing;

pub use areas::Areas;
pub use copying::copy_frames;
pub use format::Format;
pub use laws::{
    high_part_is_rounded_down, places_are_apart, printed_samples_are_read_back,
    whole_buffers_hold_every_range,
};
pub use sample::{print_sample, read_sample};
pub use silencing::silence_frames;
