//! What a call answers: a number of frames or 0, or the number of an error of `errno.h` with a minus sign.
ghost use Rattle.std.specs.Prelude.{◌≡◌};
ghost use Rattle.dmix_c.specs.Answers.{done_of, error_number, number_of};

use snd_base::PcmError;

/// EBADF: the handle is closed, or stands for something else.
pub(crate) const BAD_HANDLE: i64 = -9;

/// EBUSY: a handle that is to be opened is open.
pub(crate) const HANDLE_IN_USE: i64 = -16;

/// An error as alsa-lib answers it.
pub(crate) fn error_number(error: &PcmError) -> i64
    ensures { result ≡ error_number error.now }
{
    -(error.code() as i64)
}

/// What a call answers. A number is at most the greatest of 63 bits.
pub(crate) fn number_of(answer: Result<u64, PcmError>) -> i64
    ensures { result ≡ number_of answer }
{
    match answer {
        Ok(count) => count.min(9223372036854775807) as i64,
        Err(error) => error_number(&error),
    }
}

/// What a call gives that counts nothing: 0.
pub(crate) fn done_of(answer: Result<(), PcmError>) -> Result<u64, PcmError>
    ensures { result ≡ done_of answer }
{
    match answer {
        Ok(()) => Ok(0),
        Err(error) => Err(error),
    }
}

/// What a write or a read gives: how many frames.
pub(crate) fn frames_of(answer: Result<u32, PcmError>) -> Result<u64, PcmError>
    ensures { result ≡ answer }
{
    match answer {
        Ok(frames) => Ok(frames as u64),
        Err(error) => Err(error),
    }
}
