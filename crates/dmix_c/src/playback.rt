//! A client at the seat of its place.
ghost use Rattle.std.specs.Prelude.{◌≡◌, ◌+◌, ◌^◌, ◌<◌, false};
ghost use Rattle.rtrb.specs.Ring.{known_free, sent};
ghost use Rattle.sum_table.specs.Seats.{geometry_of, places_of_seat, seat_view};
ghost use Rattle.dmix_client.specs.Port.{CanUse};
ghost use Rattle.dmix_c.specs.Backed.{IsBackedSeat};
ghost use Rattle.dmix_c.specs.SamePlace.{AreOfPlace};

use crate::answers::{done_of, frames_of, number_of};
use crate::client_calls::{ClientCall, ClientRequest, admit, make_call, set_up};
use crate::params::{StreamHwParams, StreamStatus, StreamSwParams};
use crate::way::WayBack;
use dmix_client::Client;
use mix_core::{MixPort, NeverStops};
use pcm_states::{Call, State};
use snd_base::{PcmError, Why};
use std::alloc::Global;
use sum_table::MixSeat;

/// A client, the seat of its place, which it can use, and the way on which this seat goes back to the ring when the client
/// ends. No gate stops it.
pub struct Playback {
    pub client: Client,
    pub seat: MixSeat<'static>,
    back: WayBack,
    pub rate: u32,
    ghost unstopped: { client.stream.status.stopped ≡ false },
    ghost usable: { CanUse client.stream (seat_view seat) },
    ghost backed: { IsBackedSeat seat client },
    ghost own_way: { AreOfPlace (sent back) seat },
    ghost has_room: { 0 < known_free back },
}

impl Drop for Playback {
    fn drop(self) {
        let Playback {
            client: _,
            seat,
            mut back,
            rate: _,
        } = self;
        back.push_reserved(seat);
    }
}

impl Playback {
    ghost use Rattle.dmix_client.specs.Calls.{delay_answer};
    ghost use Rattle.dmix_c.specs.Channels.{stream_channels};
    ghost use Rattle.dmix_c.specs.Clients.{HasServed, IsNewPlayback, IsStatus, KeepsPlace, SetsSwParams, Written};
    ghost use Rattle.dmix_c.specs.ClientCalls.{HasMade, HasSetUp};
    ghost use Rattle.dmix_c.specs.declared.client_calls.ClientCall.TheVariants.{AvailUpdate};

    /// A client in OPEN at the seat of one place, on whose way only seats of this place went. A start begins `lead` frames
    /// past the card's position, less than the ring's length.
    pub(crate) fn new(
        alloc: Global,
        seat: MixSeat<'static>,
        back: WayBack,
        rate: u32,
        lead: u32,
    ) -> Playback
        requires lead { lead < (geometry_of seat).frames }
        requires one_place { places_of_seat seat ≡ 1 }
        requires own_way { AreOfPlace (sent back) seat }
        requires has_room { 0 < known_free back }
        ensures { IsNewPlayback seat.entry rate lead result }
    {
        let client = Client::new(alloc, seat.geometry(), seat.member(), lead);
        Playback {
            client,
            seat,
            back,
            rate,
        }
    }

    /// Does what is asked, and gives what the call answers.
    pub(crate) fn answer(&mut self, alloc: Global, request: ClientRequest<'_>) -> i64
        ensures { HasServed request.entry self.old self.new result }
    {
        match request {
            ClientRequest::Call(call) => number_of(self.call(call)),
            ClientRequest::HwParams(params, list) => number_of(self.hw_params(alloc, params, list)),
            ClientRequest::SwParams(params) => number_of(done_of(self.sw_params(params))),
            ClientRequest::State => self.state().number() as i64,
            ClientRequest::Write(samples) => number_of(self.writei(samples)),
        }
    }

    /// Makes a call.
    pub(crate) fn call(&mut self, asked: ClientCall) -> Result<u64, PcmError>
        ensures made { HasMade asked self.old.seat self.old.client self.new.seat self.new.client
            result }
        ensures same { KeepsPlace self.old self.new }
    {
        make_call(&mut self.client, &mut self.seat, asked)
    }

    /// Writes interleaved samples, and answers how many frames were taken. `Invalid` comes exactly where the client could be
    /// written to, and the samples are no whole frames or more than 4,194,304 of them, or 2 to the power 63 frames were accepted
    /// before.
    pub(crate) fn writei(&mut self, samples: &[i16]) -> Result<u64, PcmError>
        ensures { Written self.old self.new samples.now result }
    {
        admit(&self.client, Call::Transfer)?;
        if !self.client.can_offer(samples) {
            return Err(PcmError::Invalid(Why::Config));
        }
        self.client.counts_are_sound();
        frames_of(self.client.writei(&mut self.seat, &mut NeverStops, samples))
    }

    /// Sets the hardware parameters, with the card's channel for each of the client's.
    pub(crate) fn hw_params(
        &mut self,
        alloc: Global,
        params: &StreamHwParams,
        list: &[u32],
    ) -> Result<u64, PcmError>
        ensures set_up { HasSetUp (geometry_of self.old.seat) self.old.rate params.now list.now
            self.old.client self.new.client result }
        ensures seat { self.new.seat ≡ self.old.seat }
        ensures rate { self.new.rate ≡ self.old.rate }
    {
        let geometry = self.seat.geometry();
        set_up(&mut self.client, alloc, geometry, self.rate, params, list)
    }

    /// Sets the software parameters.
    pub(crate) fn sw_params(&mut self, params: &StreamSwParams) -> Result<(), PcmError>
        ensures { SetsSwParams params.now self.old self.new result }
    {
        self.client.sw_params(params.thresholds())
    }

    /// How many channels the client has, by which its calls count samples as frames, and 0 while it has no configuration.
    pub(crate) fn channels(&self) -> u64
        ensures { result ≡ stream_channels self.now.client.stream.setup }
    {
        self.client.counts_are_sound();
        match self.client.config() {
            Some(config) => config.channels as u64,
            None => 0,
        }
    }

    /// The state.
    pub(crate) fn state(&self) -> State
        ensures { result ≡ self.now.client.stream.status.state }
    {
        self.client.state()
    }

    /// How many frames are played before the one that is written next, by the position that was loaded last. It is at most
    /// the greatest of 64 bits.
    fn synced_delay(&self) -> u64
        ensures { self.now.client.stream.stretch.card + self.now.client.stream.stretch.written
            < 2 ^ 64 → result ≡ delay_answer self.now.client.stream }
    {
        let segment = self.client.segment();
        self.client.counts_are_sound();
        let written = self.client.fed() - segment.source;
        let end = segment.card.saturating_add(written);
        match self.client.state() {
            State::Setup => 0,
            State::Prepared => written,
            _ => end.saturating_sub(self.client.seen().unwrap_or(0)),
        }
    }

    /// What the client is after a sync that answered the frames which can be written, or an error.
    fn status_after(&self, synced: &Result<u64, PcmError>) -> StreamStatus
        ensures { IsStatus self.now.client.stream synced.now result }
    {
        let (avail, delay) = match synced {
            Ok(avail) => (*avail, self.synced_delay()),
            Err(_) => (0, 0),
        };
        StreamStatus {
            state: self.client.state().number() as u64,
            avail,
            delay,
            position: self.client.seen().unwrap_or(0),
        }
    }

    /// Syncs, and tells what the client is then: its state, the frames that can be written, the delay and the position.
    pub(crate) fn status(&mut self) -> (StreamStatus, Result<u64, PcmError>)
        ensures made { HasMade AvailUpdate self.old.seat self.old.client self.new.seat
            self.new.client result.1 }
        ensures same { KeepsPlace self.old self.new }
        ensures told { IsStatus self.new.client.stream result.1 result.0 }
    {
        let synced = self.call(ClientCall::AvailUpdate);
        (self.status_after(&synced), synced)
    }
}
