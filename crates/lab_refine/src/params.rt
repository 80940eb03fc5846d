//! The names of the hardware parameters.
ghost use Rattle.std.specs.Prelude.{◌≡◌};
ghost use Rattle.lab_refine.specs.Params.{all_params, has_name, is_mask, most_of, param_name, param_of};

use hw_space::Param;

/// Every parameter, in the order of ALSA's list.
const ALL: [Param; 13] = [
    Param::Access,
    Param::Format,
    Param::SampleBits,
    Param::FrameBits,
    Param::Channels,
    Param::Rate,
    Param::PeriodTime,
    Param::PeriodSize,
    Param::PeriodBytes,
    Param::Periods,
    Param::BufferTime,
    Param::BufferSize,
    Param::BufferBytes,
];

/// The parameter's name in a text.
pub(crate) fn name(param: Param) -> &'static str
    ensures { result.now ≡ param_name param }
{
    match param {
        Param::Access => "access",
        Param::Format => "format",
        Param::SampleBits => "sample_bits",
        Param::FrameBits => "frame_bits",
        Param::Channels => "channels",
        Param::Rate => "rate",
        Param::PeriodTime => "period_time",
        Param::PeriodSize => "period_size",
        Param::PeriodBytes => "period_bytes",
        Param::Periods => "periods",
        Param::BufferTime => "buffer_time",
        Param::BufferSize => "buffer_size",
        Param::BufferBytes => "buffer_bytes",
    }
}

/// Whether the word is the parameter's name.
fn has_name(word: &[u8], param: Param) -> bool
    ensures { result ≡ has_name word.now param }
{
    name(param).as_bytes() == word
}

/// The parameter of a name.
pub(crate) fn param_of(word: &[u8]) -> Option<Param>
    ensures { result ≡ param_of word.now }
{
    ALL.iter().copied().find(|param| has_name(word, *param))
}

/// Whether a parameter is a set of numbered members, as the accesses and the formats are.
pub(crate) fn is_mask(param: Param) -> bool
    ensures { result ≡ is_mask param }
{
    matches!(param, Param::Access | Param::Format)
}

/// The greatest value that a line can give for a parameter.
pub(crate) fn most_of(param: Param) -> u64
    ensures { result ≡ most_of param }
{
    if is_mask(param) { 63 } else { 4_294_967_295 }
}
