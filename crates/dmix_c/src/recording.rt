//! A reader at its seat.
ghost use Rattle.std.specs.Prelude.{◌≡◌, false};
ghost use Rattle.snoop_table.specs.Readers.{geometry_of, seat_view};
ghost use Rattle.dsnoop_client.specs.View.{CanUse};

use crate::answers::{done_of, frames_of, number_of};
use crate::params::{StreamHwParams, StreamStatus, StreamSwParams};
use crate::reader_calls::{ReaderCall, ReaderRequest, admit, make_call, set_up};
use dsnoop_client::Reader;
use mix_core::NeverStops;
use pcm_states::{Call, State};
use snd_base::{PcmError, Why};
use snoop_core::SnoopPort;
use snoop_table::ReaderSeat;
use std::alloc::Global;

/// A reader, and the seat by which it loads captured frames, which it can use. No gate stops it. Nothing goes back to the ring
/// when the reader ends: a ring has as many readers as are opened.
pub struct Recording {
    pub reader: Reader,
    pub seat: ReaderSeat<'static>,
    pub rate: u32,
    ghost unstopped: { reader.status.stopped ≡ false },
    ghost usable: { CanUse reader (seat_view seat) },
}

// One call wherever it is let go, as of `OpenRing`.
impl Drop for Recording {
    fn drop(self) {
        let Recording {
            reader: _,
            seat: _,
            rate: _,
        } = self;
    }
}

impl Recording {
    ghost use Rattle.dmix_c.specs.Channels.{stream_channels};
    ghost use Rattle.dmix_c.specs.ReaderCalls.{ReaderHasMade, ReaderHasSetUp};
    ghost use Rattle.dmix_c.specs.Readers.{IsNewRecording, IsReaderStatus, KeepsSource, ReaderHasServed, ReaderSetsSwParams, WasRead};
    ghost use Rattle.dmix_c.specs.declared.reader_calls.ReaderCall.TheVariants.{AvailUpdate};

    /// A reader in OPEN at a seat.
    pub(crate) fn new(alloc: Global, seat: ReaderSeat<'static>, rate: u32) -> Recording
        ensures { IsNewRecording seat.entry rate result }
    {
        let reader = Reader::new(alloc, seat.geometry());
        Recording { reader, seat, rate }
    }

    /// Does what is asked, and gives what the call answers.
    pub(crate) fn answer(&mut self, alloc: Global, request: ReaderRequest<'_>) -> i64
        ensures { ReaderHasServed request.entry self.old self.new result }
    {
        match request {
            ReaderRequest::Call(call) => number_of(self.call(call)),
            ReaderRequest::HwParams(params, list) => number_of(self.hw_params(alloc, params, list)),
            ReaderRequest::SwParams(params) => number_of(done_of(self.sw_params(params))),
            ReaderRequest::State => self.state().number() as i64,
        }
    }

    /// Makes a call.
    pub(crate) fn call(&mut self, asked: ReaderCall) -> Result<u64, PcmError>
        ensures made { ReaderHasMade asked self.old.seat self.old.reader self.new.seat
            self.new.reader result }
        ensures same { KeepsSource self.old self.new }
    {
        make_call(&mut self.reader, &mut self.seat, asked)
    }

    /// Reads interleaved frames, and answers how many were read. `Invalid` comes exactly where the reader could be read from,
    /// and the room isn't of whole frames, or is of more than 4,194,304.
    pub(crate) fn readi(&mut self, out: &mut [i16]) -> Result<u64, PcmError>
        ensures { WasRead self.old self.new out.old out.new result }
    {
        admit(&self.reader, Call::Transfer)?;
        if !self.reader.can_read(out) {
            return Err(PcmError::Invalid(Why::Config));
        }
        frames_of(self.reader.readi(&mut self.seat, &mut NeverStops, out))
    }

    /// Sets the hardware parameters, with the card's channel for each of the reader's.
    pub(crate) fn hw_params(
        &mut self,
        alloc: Global,
        params: &StreamHwParams,
        list: &[u32],
    ) -> Result<u64, PcmError>
        ensures set_up { ReaderHasSetUp (geometry_of self.old.seat) self.old.rate params.now
            list.now self.old.reader self.new.reader result }
        ensures seat { self.new.seat ≡ self.old.seat }
        ensures rate { self.new.rate ≡ self.old.rate }
    {
        let geometry = self.seat.geometry();
        set_up(&mut self.reader, alloc, geometry, self.rate, params, list)
    }

    /// Sets the software parameters.
    pub(crate) fn sw_params(&mut self, params: &StreamSwParams) -> Result<(), PcmError>
        ensures { ReaderSetsSwParams params.now self.old self.new result }
    {
        self.reader.sw_params(params.thresholds())
    }

    /// How many channels the reader has, by which its calls count samples as frames, and 0 while it has no configuration.
    pub(crate) fn channels(&self) -> u64
        ensures { result ≡ stream_channels self.now.reader.setup }
    {
        self.reader.counts_are_sound();
        match self.reader.config() {
            Some(config) => config.channels as u64,
            None => 0,
        }
    }

    /// The state.
    pub(crate) fn state(&self) -> State
        ensures { result ≡ self.now.reader.status.state }
    {
        self.reader.state()
    }

    /// What the reader is after a sync that answered the frames which can be read, or an error.
    fn status_after(&self, synced: &Result<u64, PcmError>) -> StreamStatus
        ensures { IsReaderStatus self.now.reader synced.now result }
    {
        let avail = match synced {
            Ok(avail) => *avail,
            Err(_) => 0,
        };
        StreamStatus {
            state: self.reader.state().number() as u64,
            avail,
            delay: avail,
            position: self.reader.seen().unwrap_or(0),
        }
    }

    /// Syncs, and tells what the reader is then: its state, the frames that can be read, which are also the delay, and the
    /// position.
    pub(crate) fn status(&mut self) -> (StreamStatus, Result<u64, PcmError>)
        ensures made { ReaderHasMade AvailUpdate self.old.seat self.old.reader self.new.seat
            self.new.reader result.1 }
        ensures same { KeepsSource self.old self.new }
        ensures told { IsReaderStatus self.new.reader result.1 result.0 }
    {
        let synced = self.call(ReaderCall::AvailUpdate);
        (self.status_after(&synced), synced)
    }
}
