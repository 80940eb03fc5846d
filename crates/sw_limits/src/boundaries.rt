//! The boundary, at which the pointers of a ring buffer wrap.
ghost use Rattle.std.specs.Prelude.{◌≡◌, ◌%◌, ◌^◌, ◌<◌, ◌≤◌};
ghost use Rattle.sw_limits.specs.Boundary.{IsBoundary};

/// The greatest position, in frames, that a pointer can have: the greatest `long` of a machine of 64 bits.
const POSITION_MAX: u64 = 9223372036854775807;

/// The boundary of a buffer of `buffer_size` frames, in frames: the positions of the stream start again
/// at 0 there (`snd_pcm_sw_params_get_boundary` of alsa/pcm.h).
///
/// As in ALSA it is the buffer size, doubled as long as the double and a whole buffer more stay below 2
/// to the power 63. So it is a multiple of the buffer size, and far above it. The caller has a buffer
/// size of at least 1.
pub fn boundary(buffer_size: u32) -> u64
    requires { 1 ≤ buffer_size }
    ensures boundary { IsBoundary buffer_size result }
    ensures multiple { result % buffer_size ≡ 0 }
    ensures least { 2 ^ 61 ≤ result }
    ensures below { result < 2 ^ 63 }
{
    let size = buffer_size as u64;
    // So many doubles stay below 2 to the power 63, and one more doesn't.
    let doubled = size << (31 + buffer_size.leading_zeros());
    if doubled <= POSITION_MAX - size {
        doubled
    } else {
        doubled / 2
    }
}
