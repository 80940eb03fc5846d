//! The client: a PCM stream for playback that is mixed with others in the card's ring.
ghost use Rattle.std.specs.Prelude.{◌≡◌, ℕ, ◌+◌, ◌*◌, ◌^◌, ◌<◌, ◌≤◌, ◌⊎◌, true, false, pos, replicate, All, IfErr, OnErr, OnOk, [], List, length, unwrap_or};
ghost use Rattle.pcm_states.specs.declared.calls.Call.TheVariants as call;
ghost use Rattle.pcm_stream.specs.Setup.{Checks, config_of};
ghost use Rattle.pcm_stream.specs.Status.{refusal_of};
ghost use Rattle.pcm_stream.specs.declared.direction.Direction.{Direction};
ghost use Rattle.dmix_client.specs.Calls.{configured_with, after_drop, after_hw_free, new_client, after_prepare, segment_of, with_params};
ghost use Rattle.dmix_client.specs.View.{ClientView, IsSoundClient};
ghost use Rattle.sw_limits.specs.Boundary.{IsBoundary};

use crate::stream::PlaybackStream;
use bindings::Bindings;
use hw_space::Config;
use pcm_states::{Call, State};
use pcm_stream::{Direction, Setup};
use snd_base::{Geometry, PcmError, Segment};
use std::alloc::Global;
use std::marker::Model;
use sw_limits::SwParams;

/// A playback stream whose frames are mixed with other clients' in the card's ring, as ALSA's `dmix` plugin mixes them
/// (alsa-lib, `snd_pcm_dmix`). It is used as a `snd_pcm_t` that is opened without waiting (`SND_PCM_NONBLOCK`).
///
/// Contracts see its counts and settings, and its local ring. Frames of the card are absolute numbers, samples are
/// interleaved.
///
/// It keeps no list of the frames that it accepted, only those that it still needs. So contracts hold for every list of
/// samples that agrees with its local ring on these, which the client then represents (`StandsFor`): a call places exactly
/// the frames by which the entries of `segment` grow (`grows`), and the client represents the list after the call too
/// (`stands`). The frames that `writei` is offered are in the list right after those that were accepted, whatever it answers.
pub struct Client {
    pub(crate) stream: PlaybackStream,
    pub(crate) ring: Vec<i16>,
}

// One call wherever it is let go. A derive drops each part in turn there, and the proof goes through all of them.
impl Drop for Client {
    fn drop(self) {
        let Client { stream: _, ring: _ } = self;
    }
}

impl Model for Client {
    ghost use Rattle.dmix_client.specs.View.{ClientView, IsSoundClient};

    ghost Value = { ClientView };

    ghost use Rattle.dmix_client.specs.View.{IsSoundClient};

    ghost view = { λ c. record { stream = c.stream; ring = c.ring.items } };

    ghost invariant = { λ c. IsSoundClient c.stream c.ring.items };
}

impl Client {
    /// A client in OPEN, of the member `member` of a ring of this geometry. A start begins `lead` frames, less than the
    /// ring's length, past the card's position.
    pub fn new(alloc: Global, geometry: Geometry, member: u32, lead: u32) -> Client
        requires { lead < geometry.frames }
        ensures { result ≡ record { stream = new_client geometry member lead; ring = [] } }
    {
        Client {
            stream: PlaybackStream::new(geometry, member, lead),
            ring: Vec::new(alloc),
        }
    }

    /// What every client keeps: how its counts and its local ring fit each other. A fact for contracts; it does nothing.
    pub fn counts_are_sound(&self)
        ensures { IsSoundClient self.now.stream self.now.ring }
    {
        let _ = &self.stream;
    }

    /// The state of the stream (`snd_pcm_state`).
    pub fn state(&self) -> State
        ensures { result ≡ self.now.stream.status.state }
    {
        self.stream.status.state
    }

    /// Whether the gate has stopped the client. Every later call is then refused with `Stopped`.
    pub fn is_stopped(&self) -> bool
        ensures { result ≡ self.now.stream.status.stopped }
    {
        self.stream.status.stopped
    }

    /// The configuration that `hw_params` set, until `hw_free` (`snd_pcm_hw_params_current`).
    pub fn config(&self) -> Option<Config>
        ensures { result ≡ config_of self.now.stream.setup }
    {
        self.stream.setup.config()
    }

    /// The position of the card, a frame number, that this client loaded last.
    pub fn seen(&self) -> Option<u64>
        ensures { result ≡ self.now.stream.seen }
    {
        self.stream.seen
    }

    /// How many frames its `writei` calls have accepted since `new`.
    pub fn fed(&self) -> u64
        ensures { result ≡ self.now.stream.fed }
    {
        self.stream.fed
    }

    /// What the client has placed in the card's ring since the last `prepare`, or the last resume that based its counts anew.
    pub fn segment(&self) -> Segment
        ensures { result ≡ segment_of self.now.stream }
    {
        self.stream.segment()
    }

    /// Sets the configuration and the bindings, takes the local ring's memory, sets the default software parameters and
    /// prepares the stream (`snd_pcm_hw_params`, which also prepares).
    ///
    /// The caller has bindings of the configuration's channels to channels that the ring has, and a buffer of 1 to
    /// 16,384 frames. `BadState` comes unless the state is OPEN, SETUP or PREPARED, and `Memory` where no memory is left.
    /// A refused call changes nothing.
    pub fn hw_params(
        &mut self,
        alloc: Global,
        config: Config,
        bindings: Bindings,
    ) -> Result<(), PcmError>
        requires channels { length bindings ≡ config.channels }
        requires on_card { All (λ channel. channel < self.old.stream.identity.geometry.channels)
            bindings }
        requires buffer_least { 1 ≤ config.buffer_size }
        requires buffer_most { config.buffer_size ≤ 16384 }
        ensures refused { (e : PcmError) →
            refusal_of Direction.Playback self.old.stream.status call.HwParams ≡ Some e →
            result ≡ Err e }
        ensures ok { OnOk result (self.new
            ≡ record {
              stream = configured_with self.old.stream config bindings;
              ring = replicate (config.buffer_size * length bindings) (pos 0);
            }) }
        ensures err { OnErr result (self.new ≡ self.old) }
        ensures only { IfErr result
            (λ e. (refusal_of Direction.Playback self.old.stream.status call.HwParams ≡ Some e)
            ⊎ (e ≡ PcmError.Memory)) }
    {
        self.stream
            .status
            .admit(Direction::Playback, Call::HwParams)?;
        let room = config.buffer_size as usize * bindings.len() as usize;
        let ring = vec![in alloc; 0i16; room]?;
        self.ring = ring;
        self.stream = PlaybackStream {
            setup: Setup::with(config, bindings),
            ..self.stream.prepared()
        };
        Ok(())
    }

    /// Gives the configuration up (`snd_pcm_hw_free`): OPEN, from SETUP or PREPARED. A refused call changes nothing.
    pub fn hw_free(&mut self) -> Result<(), PcmError>
        ensures refused { (e : PcmError) →
            refusal_of Direction.Playback self.old.stream.status call.HwFree ≡ Some e →
            (result ≡ Err e) × (self.new ≡ self.old) }
        ensures freed { refusal_of Direction.Playback self.old.stream.status call.HwFree ≡ None →
            (result ≡ Ok tt)
            × (self.new ≡ record { stream = after_hw_free self.old.stream; ring = [] }) }
    {
        self.stream.status.admit(Direction::Playback, Call::HwFree)?;
        self.stream = self.stream.freed();
        self.ring.clear();
        Ok(())
    }

    /// Sets the software parameters (`snd_pcm_sw_params`), in every state but OPEN and DISCONNECTED. `Invalid` comes
    /// exactly where they have a defect, with the first one. A refused call changes nothing.
    pub fn sw_params(&mut self, params: SwParams) -> Result<(), PcmError>
        ensures refused { (e : PcmError) →
            refusal_of Direction.Playback self.old.stream.status call.SwParams ≡ Some e →
            (result ≡ Err e) × (self.new ≡ self.old) }
        ensures checked { refusal_of Direction.Playback self.old.stream.status call.SwParams ≡ None
            → (b : ℕ) × IsBoundary self.old.stream.setup.config.buffer_size b
            × Checks result params b }
        ensures ok { OnOk result (self.new
            ≡ record { stream = with_params self.old.stream params; ring = self.old.ring }) }
        ensures err { OnErr result (self.new ≡ self.old) }
    {
        self.stream
            .status
            .admit(Direction::Playback, Call::SwParams)?;
        self.stream.setup.set_params(params)
    }

    /// Prepares the stream (`snd_pcm_prepare`): what is pending is discarded, and a new stretch has nothing written or placed.
    /// PREPARED, from SETUP, PREPARED or XRUN. A refused call changes nothing.
    pub fn prepare(&mut self) -> Result<(), PcmError>
        ensures refused { (e : PcmError) →
            refusal_of Direction.Playback self.old.stream.status call.Prepare ≡ Some e →
            (result ≡ Err e) × (self.new ≡ self.old) }
        ensures prepared { refusal_of Direction.Playback self.old.stream.status call.Prepare ≡ None
            → (result ≡ Ok tt)
            × (self.new ≡ record { stream = after_prepare self.old.stream; ring = self.old.ring }) }
    {
        self.stream
            .status
            .admit(Direction::Playback, Call::Prepare)?;
        self.stream = self.stream.prepared();
        Ok(())
    }

    /// Stops the stream (`snd_pcm_drop`): what is pending is discarded. SETUP, from every state but OPEN and
    /// DISCONNECTED. Unlike ALSA's `snd_pcm_drop` it leaves what was committed in the card's ring. A refused call changes
    /// nothing.
    pub fn drop_pending(&mut self) -> Result<(), PcmError>
        ensures refused { (e : PcmError) →
            refusal_of Direction.Playback self.old.stream.status call.Drop ≡ Some e →
            (result ≡ Err e) × (self.new ≡ self.old) }
        ensures dropped { refusal_of Direction.Playback self.old.stream.status call.Drop ≡ None →
            (result ≡ Ok tt)
            × (self.new ≡ record { stream = after_drop self.old.stream; ring = self.old.ring }) }
    {
        self.stream.status.admit(Direction::Playback, Call::Drop)?;
        self.stream = self.stream.dropped();
        Ok(())
    }
}
