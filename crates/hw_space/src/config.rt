//! A configuration of the hardware parameters.

/// The hardware parameters that a stream runs with, each with one value (ALSA's `snd_pcm_hw_params_t`
/// of alsa/pcm.h, once one configuration is chosen).
///
/// A frame is one sample for each of `channels`. `rate` is in Hz: so many frames pass in a second.
/// `period_size` and `buffer_size` are in frames: the buffer is the whole ring, and a period is the
/// part of it after which a client is woken. `periods` is the number of periods in the buffer.
#[derive(Clone, Copy, Debug, PartialEq, Eq)]
pub struct Config {
    pub channels: u8,
    pub rate: u32,
    pub period_size: u32,
    pub buffer_size: u32,
    pub periods: u32,
}
