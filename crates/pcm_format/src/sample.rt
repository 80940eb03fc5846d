//! The bytes of one sample.
ghost use Rattle.std.specs.Prelude.{◌≡◌, length};
ghost use Rattle.pcm_format.specs.Samples.{bytes_of, sample_of_bytes, bytes_of_sample};

use crate::format::Format;

/// The sample of 16 bits that `bytes` represent in a format.
///
/// The caller has as many bytes as the format: 1 for `S8` and `U8`, 2 for `S16Le` and `S16Be`. An
/// 8-bit sample is put into the high byte: the signed byte times 256, for `U8` the byte less 128
/// times 256. The formats are those of alsa/pcm.h.
pub fn read_sample(format: Format, bytes: &[u8]) -> i16
    requires { length bytes.now ≡ bytes_of format }
    ensures { result ≡ sample_of_bytes format bytes.now }
{
    match format {
        Format::S8 => i16::from(bytes[0].cast_signed()) * 256,
        Format::U8 => (i16::from(bytes[0]) - 128) * 256,
        Format::S16Le => i16::from_le_bytes([bytes[0], bytes[1]]),
        Format::S16Be => i16::from_be_bytes([bytes[0], bytes[1]]),
    }
}

/// Writes a sample of 16 bits into `bytes` in a format.
///
/// The caller has as many bytes as the format: 1 for `S8` and `U8`, 2 for `S16Le` and `S16Be`. An
/// 8-bit sample is the sample divided by 256, rounded down, for `U8` plus 128. The formats are those
/// of alsa/pcm.h.
pub fn print_sample(format: Format, sample: i16, bytes: &mut [u8])
    requires { length bytes.old ≡ bytes_of format }
    ensures { bytes.new ≡ bytes_of_sample format sample }
{
    match format {
        Format::S8 => bytes[0] = ((sample >> 8) as i8).cast_unsigned(),
        Format::U8 => bytes[0] = ((sample >> 8) + 128) as u8,
        Format::S16Le => bytes.copy_from_slice(&sample.to_le_bytes()),
        Format::S16Be => bytes.copy_from_slice(&sample.to_be_bytes()),
    }
}
