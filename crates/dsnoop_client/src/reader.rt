//! The reader: a PCM stream for capture that shares the card's frames with others.
ghost use Rattle.std.specs.Prelude.{◌≡◌, ◌≤◌, ℕ, IfErr, OnErr, OnOk, length, ◌⊎◌};
ghost use Rattle.pcm_states.specs.declared.calls.Call.TheVariants as call;
ghost use Rattle.pcm_stream.specs.Setup.{CanRunWith, Checks, config_of};
ghost use Rattle.pcm_stream.specs.Status.{refusal_of};
ghost use Rattle.pcm_stream.specs.declared.direction.Direction.{Direction};
ghost use Rattle.sw_limits.specs.Boundary.{IsBoundary};
ghost use Rattle.dsnoop_client.specs.Calls.{configured_with, after_hw_free, in_state, new_reader, with_params};
ghost use Rattle.dsnoop_client.specs.View.{IsSoundReader};

use crate::stream::CaptureStream;
use bindings::Bindings;
use hw_space::Config;
use pcm_states::{Call, State};
use pcm_stream::{Direction, Setup};
use snd_base::{Geometry, PcmError};
use std::alloc::Global;
use std::marker::Model;
use sw_limits::SwParams;

/// A capture stream that reads the frames which a card captures into a shared ring, as ALSA's `dsnoop` plugin does
/// (alsa-lib, `snd_pcm_dsnoop`). It is used as a `snd_pcm_t` that is opened without waiting (`SND_PCM_NONBLOCK`).
///
/// Contracts see its state, its settings and how far it has read. Frames of the card are absolute numbers, samples are
/// interleaved. It has no ring of its own: a read takes the frames from the card's ring, and one that a later frame was
/// stored over is an xrun.
pub struct Reader {
    pub(crate) stream: CaptureStream,
    pub(crate) frame: Vec<i16>,
}

// One call wherever it is let go. A derive drops each part in turn there, and the proof goes through all of them.
impl Drop for Reader {
    fn drop(self) {
        let Reader {
            stream: _,
            frame: _,
        } = self;
    }
}

impl Model for Reader {
    ghost use Rattle.dsnoop_client.specs.declared.stream.CaptureStream.{CaptureStream};
    ghost use Rattle.dsnoop_client.specs.View.{HasRoom, IsSoundReader};

    ghost Value = { CaptureStream };

    ghost view = { λ r. r.stream };

    ghost invariant = { λ r. IsSoundReader r.stream × HasRoom r.stream r.frame.items };
}

impl Reader {
    /// A reader in OPEN, of a ring of this geometry.
    pub fn new(alloc: Global, geometry: Geometry) -> Reader
        ensures { result ≡ new_reader geometry }
    {
        Reader {
            stream: CaptureStream::new(geometry),
            frame: Vec::new(alloc),
        }
    }

    /// What every reader keeps: how its state, its settings and its counts fit each other. A fact for contracts; it does
    /// nothing.
    pub fn counts_are_sound(&self)
        ensures { IsSoundReader self.now }
    {
        let _ = &self.stream;
    }

    /// The state of the stream (`snd_pcm_state`).
    pub fn state(&self) -> State
        ensures { result ≡ self.now.status.state }
    {
        self.stream.status.state
    }

    /// Whether the gate has stopped the reader. Every later call but `pause` is then refused with `Stopped`.
    pub fn is_stopped(&self) -> bool
        ensures { result ≡ self.now.status.stopped }
    {
        self.stream.status.stopped
    }

    /// The configuration that `hw_params` set, until `hw_free` (`snd_pcm_hw_params_current`).
    pub fn config(&self) -> Option<Config>
        ensures { result ≡ config_of self.now.setup }
    {
        self.stream.setup.config()
    }

    /// The position of the card, a frame number, that this reader loaded last.
    pub fn seen(&self) -> Option<u64>
        ensures { result ≡ self.now.seen }
    {
        self.stream.seen
    }

    /// The frame that the next read begins with, a frame number: once the stream was started, the one after those that it
    /// read.
    pub fn next(&self) -> u64
        ensures { result ≡ self.now.next }
    {
        self.stream.next
    }

    /// How many channels the stream has: as many as its bindings, and one before there are any.
    pub fn channels(&self) -> u8
        ensures value { result ≡ length self.now.setup.bindings }
        ensures some { 1 ≤ result }
    {
        self.stream.setup.bindings.len()
    }

    /// Sets the configuration and the bindings, takes the memory for one frame of the card, sets the default software
    /// parameters and prepares the stream (`snd_pcm_hw_params`, which also prepares).
    ///
    /// The caller has a configuration and bindings that the reader can run with (`can_run_with`). `BadState` comes unless
    /// the state is OPEN, SETUP or PREPARED, and `Memory` where no memory is left. A refused call changes nothing.
    pub fn hw_params(
        &mut self,
        alloc: Global,
        config: Config,
        bindings: Bindings,
    ) -> Result<(), PcmError>
        requires { CanRunWith self.old.geometry config bindings }
        ensures refused { (e : PcmError)
            → refusal_of Direction.Capture self.old.status call.HwParams ≡ Some e
            → result ≡ Err e }
        ensures ok { OnOk result (self.new ≡ configured_with self.old config bindings) }
        ensures err { OnErr result (self.new ≡ self.old) }
        ensures only { IfErr result
            (λ e. (refusal_of Direction.Capture self.old.status call.HwParams ≡ Some e)
            ⊎ (e ≡ PcmError.Memory)) }
    {
        self.stream
            .status
            .admit(Direction::Capture, Call::HwParams)?;
        let frame = vec![in alloc; 0i16; self.stream.geometry.channels as usize]?;
        self.frame = frame;
        self.stream = CaptureStream {
            setup: Setup::with(config, bindings),
            ..self.stream.in_state(State::Prepared)
        };
        Ok(())
    }

    /// Gives the configuration up (`snd_pcm_hw_free`): OPEN, from SETUP or PREPARED. A refused call changes nothing.
    pub fn hw_free(&mut self) -> Result<(), PcmError>
        ensures refused { (e : PcmError)
            → refusal_of Direction.Capture self.old.status call.HwFree ≡ Some e
            → (result ≡ Err e) × (self.new ≡ self.old) }
        ensures freed { refusal_of Direction.Capture self.old.status call.HwFree ≡ None
            → (result ≡ Ok tt) × (self.new ≡ after_hw_free self.old) }
    {
        self.stream.status.admit(Direction::Capture, Call::HwFree)?;
        self.stream = self.stream.freed();
        self.frame.clear();
        Ok(())
    }

    /// Sets the software parameters (`snd_pcm_sw_params`), in every state but OPEN and DISCONNECTED. `Invalid` comes
    /// exactly where they have a defect, with the first one. A refused call changes nothing.
    pub fn sw_params(&mut self, params: SwParams) -> Result<(), PcmError>
        ensures refused { (e : PcmError)
            → refusal_of Direction.Capture self.old.status call.SwParams ≡ Some e
            → (result ≡ Err e) × (self.new ≡ self.old) }
        ensures checked { refusal_of Direction.Capture self.old.status call.SwParams ≡ None
            → (b : ℕ) × IsBoundary self.old.setup.config.buffer_size b × Checks result params b }
        ensures ok { OnOk result (self.new ≡ with_params self.old params) }
        ensures err { OnErr result (self.new ≡ self.old) }
    {
        self.stream
            .status
            .admit(Direction::Capture, Call::SwParams)?;
        self.stream.setup.set_params(params)
    }

    /// The software parameters (`snd_pcm_sw_params_current`): the default ones until others are set, and of no use before
    /// there is a configuration.
    pub fn params(&self) -> SwParams
        ensures { result ≡ self.now.setup.params }
    {
        self.stream.setup.params
    }

    /// Prepares the stream (`snd_pcm_prepare`): PREPARED, from SETUP, PREPARED or XRUN. A refused call changes nothing.
    pub fn prepare(&mut self) -> Result<(), PcmError>
        ensures refused { (e : PcmError)
            → refusal_of Direction.Capture self.old.status call.Prepare ≡ Some e
            → (result ≡ Err e) × (self.new ≡ self.old) }
        ensures prepared { refusal_of Direction.Capture self.old.status call.Prepare ≡ None
            → (result ≡ Ok tt) × (self.new ≡ in_state self.old State.Prepared) }
    {
        self.stream.status.admit(Direction::Capture, Call::Prepare)?;
        self.stream = self.stream.in_state(State::Prepared);
        Ok(())
    }

    /// Stops the stream (`snd_pcm_drop`): SETUP, from every state but OPEN and DISCONNECTED. A refused call changes
    /// nothing.
    pub fn drop_pending(&mut self) -> Result<(), PcmError>
        ensures refused { (e : PcmError)
            → refusal_of Direction.Capture self.old.status call.Drop ≡ Some e
            → (result ≡ Err e) × (self.new ≡ self.old) }
        ensures dropped { refusal_of Direction.Capture self.old.status call.Drop ≡ None
            → (result ≡ Ok tt) × (self.new ≡ in_state self.old State.Setup) }
    {
        self.stream.status.admit(Direction::Capture, Call::Drop)?;
        self.stream = self.stream.in_state(State::Setup);
        Ok(())
    }

    /// Pausing (`snd_pcm_pause`) is refused with `NotSupported` in every state, also of a reader that is stopped.
    pub fn pause(&mut self, _on: bool) -> Result<(), PcmError>
        ensures answer { result ≡ Err PcmError.NotSupported }
        ensures unchanged { self.new ≡ self.old }
    {
        Err(PcmError::NotSupported)
    }
}
