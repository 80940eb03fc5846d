//! One frame, and a part of one, in place.
ghost use Rattle.std.specs.Prelude.{◌≤◌};

/// At most eight samples, one for each channel.
#[derive(Clone, Copy, Debug)]
pub(crate) struct Frame {
    samples: [i16; 8],
    len: u8,
    ghost few: { len ≤ 8 },
}

impl Frame {
    ghost use Rattle.std.specs.Prelude.{◌≡◌, ◌<◌, length, slice_set};
    ghost use Rattle.plug_chain.specs.Held.{samples_of};
    ghost use Rattle.plug_chain.specs.Rates.{silence};

    /// A frame of silence.
    pub(crate) fn silent(channels: u8) -> Frame
        requires { channels ≤ 8 }
        ensures { samples_of result ≡ silence channels }
    {
        Frame {
            samples: [0; 8],
            len: channels,
        }
    }

    /// Puts a sample in the place of a channel's.
    pub(crate) fn put(&mut self, channel: u8, sample: i16)
        requires { channel < length (samples_of self.old) }
        ensures { samples_of self.new ≡ slice_set (samples_of self.old) channel sample }
    {
        self.samples[channel as usize] = sample;
    }

    /// The samples, in the order of the channels.
    pub(crate) fn as_slice(&self) -> &[i16]
        ensures { result.now ≡ samples_of self.now }
    {
        &self.samples[..self.len as usize]
    }
}

/// At most 32 bytes: those of a frame that has not come whole yet.
#[derive(Clone, Copy, Debug)]
pub(crate) struct Part {
    bytes: [u8; 32],
    len: u8,
    ghost few: { len ≤ 32 },
}

impl Part {
    ghost use Rattle.std.specs.Prelude.{◌≡◌, ◌+◌, [], ◌++◌, length};
    ghost use Rattle.plug_chain.specs.Held.{part_bytes};

    /// No bytes.
    pub(crate) fn empty() -> Part
        ensures { part_bytes result ≡ [] }
    {
        Part {
            bytes: [0; 32],
            len: 0,
        }
    }

    /// Adds bytes at the end.
    pub(crate) fn extend(&mut self, more: &[u8])
        requires { length (part_bytes self.old) + length more.now ≤ 32 }
        ensures { part_bytes self.new ≡ part_bytes self.old ++ more.now }
    {
        let start = self.len as usize;
        let end = start + more.len();
        self.bytes[start..end].copy_from_slice(more);
        self.len = end as u8;
    }

    /// The bytes that have come.
    pub(crate) fn as_slice(&self) -> &[u8]
        ensures { result.now ≡ part_bytes self.now }
    {
        &self.bytes[..self.len as usize]
    }
}
