//! A ring that is open: its places, and the ways on which their seats come back.
ghost use Rattle.std.specs.Prelude.{◌≡◌, ◌⊎◌, ◌<◌, length, IfErr, IfOk, IfSome, MatchResult, None, Some};
ghost use Rattle.lobby.specs.Lobbies.{IsSilentSeat, key_of_lobby, places_of_lobby, ring_of_lobby, seen_of_lobby};
ghost use Rattle.dmix_c.specs.Ways.{IsNewWay, IsOfRing, LeadTo, LeadsTo};

use crate::duplex_card::DuplexCard;
use crate::opened::Opened;
use crate::params::RingParams;
use crate::playback::Playback;
use crate::playing_card::PlayingCard;
use crate::recording::Recording;
use crate::way::{Arrivals, WayBack, new_way, no_ways, send_once};
use card_player::CardPlayer;
use card_sim::Card;
use lobby::Lobby;
use mix_core::MixPort;
use snd_base::{Geometry, PcmError};
use snoop_table::{ReaderSeat, SnoopRing};
use std::alloc::Global;
use sum_table::{MixSeat, SumRing};

/// A ring that is open. The lobby has the seats of the places that no client has. A client's seat comes back on a way of
/// its own, by the place's number, when the client is closed, in whichever thread that is. Where the card captures, `capture`
/// is the seat that the readers' are split from.
///
/// A start of a client begins `period` frames past the card's position.
pub struct OpenRing {
    pub lobby: Lobby<'static>,
    ways: Vec<Option<Arrivals>>,
    pub capture: Option<ReaderSeat<'static>>,
    pub rate: u32,
    pub period: u32,
    ghost lead: { period < (key_of_lobby lobby).geometry.frames },
    ghost each: { length ways.items ≡ places_of_lobby lobby },
    ghost ways_lead: { LeadTo (ring_of_lobby lobby) (key_of_lobby lobby) ways.items },
}

// One call wherever it is let go. A derive drops each part in turn there, and the proof goes through all of them.
impl Drop for OpenRing {
    fn drop(self) {
        let OpenRing {
            lobby: _,
            ways: _,
            capture: _,
            rate: _,
            period: _,
        } = self;
    }
}

impl OpenRing {
    ghost use Rattle.std.specs.List.{slice_index_or};
    ghost use Rattle.sum_table.specs.Seats.{member_of};
    ghost use Rattle.dmix_c.specs.Params.{CanOpen, IsGeometryOf};
    ghost use Rattle.dmix_c.specs.RingPlaces.{Collects, GivesNone, GivesPlace, GivesReader, IsAtStart, IsHandedOut, IsNewOpenRing, IsNewPair, KeepsRing, Receives};

    /// Opens a ring with as many free places as its parameters say, in which nothing is placed, and its card, from the first
    /// frame of lap 0 on. The card plays alone; or it captures too, and then a capture ring of the same shape is beside the
    /// ring, in which nothing is stored. It refuses, with `Memory`, only where no memory is left. The words of the rings stay
    /// until the process ends.
    pub(crate) fn open(
        alloc: Global,
        params: &RingParams,
        captures: bool,
    ) -> Result<(OpenRing, Opened), PcmError>
        requires { CanOpen params.now }
        ensures ok { IfOk result (λ opened. IsNewPair captures params.now opened.0 opened.1) }
        ensures only_memory { IfErr result (λ e. e ≡ PcmError.Memory) }
    {
        let geometry = params.geometry();
        let (mut ring, player) = OpenRing::with_player(alloc, params, geometry)?;
        if !captures {
            let alone = PlayingCard { player };
            return Ok((ring, Opened::Card(alone)));
        }
        let words = SnoopRing::new(alloc, geometry)?;
        let words: &'static mut SnoopRing = Box::leak(Box::new(alloc, words)?);
        let (writer, seat) = words.seats();
        ring.capture = Some(seat);
        let card = Card::new(player, writer, params.period_size);
        let duplex = DuplexCard { card };
        Ok((ring, Opened::Duplex(duplex)))
    }

    // A ring of this geometry, and the player of its card.
    fn with_player(
        alloc: Global,
        params: &RingParams,
        geometry: Geometry,
    ) -> Result<(OpenRing, CardPlayer<'static>), PcmError>
        requires can { CanOpen params.now }
        requires of_params { IsGeometryOf params.now geometry }
        ensures ok { IfOk result (λ made. IsNewOpenRing params.now made.0 made.1) }
        ensures plays_alone { IfOk result (λ made. made.0.capture ≡ None) }
        ensures at_start { IfOk result (λ made. IsAtStart geometry made.1) }
        ensures only_memory { IfErr result (λ e. e ≡ PcmError.Memory) }
    {
        let ways = no_ways(alloc, params.clients)?;
        let words = SumRing::new(alloc, geometry, params.clients)?;
        let words: &'static mut SumRing = Box::leak(Box::new(alloc, words)?);
        let (player, seat) = words.seats();
        let lobby = Lobby::new(alloc, seat)?;
        let player = CardPlayer::new(player, params.period_size);
        let ring = OpenRing {
            lobby,
            ways,
            capture: None,
            rate: params.rate,
            period: params.period_size,
        };
        Ok((ring, player))
    }

    /// Opens a client at the lowest place that is free and silent: its last frame, if it has one, is below the card's
    /// position, which is loaded once. `Again` comes only where there is no such place, and `Memory` where no memory is left,
    /// also there.
    pub(crate) fn open_client(&mut self, alloc: Global) -> Result<Playback, PcmError>
        ensures keeps { MatchResult result
            (λ client. KeepsRing (Some (member_of client.seat)) self.old self.new)
            (λ e. KeepsRing None self.old self.new) }
        ensures gives { IfOk result (λ client. GivesPlace self.new client) }
        ensures none { IfErr result (λ e. ((e ≡ PcmError.Again) × GivesNone self.new)
            ⊎ (e ≡ PcmError.Memory)) }
    {
        self.collect();
        let (back, arrivals) = new_way(alloc)?;
        let seat = self.attach()?;
        Ok(self.seat_client(alloc, seat, back, arrivals))
    }

    // A client at a silent seat of the ring, which keeps the way on which the seat comes back.
    fn seat_client(
        &mut self,
        alloc: Global,
        seat: MixSeat<'static>,
        mut back: WayBack,
        mut arrivals: Arrivals,
    ) -> Playback
        requires silent { IsSilentSeat self.old.lobby (seen_of_lobby self.old.lobby) seat }
        requires lowest { IsHandedOut self.old.lobby seat }
        requires way { IsNewWay back arrivals }
        ensures keeps { KeepsRing None self.old self.new }
        ensures seat { result.seat ≡ seat.entry }
        ensures gives { GivesPlace self.new result }
    {
        let seat = send_once(&mut back, &mut arrivals, seat);
        let place = seat.member() as usize;
        self.keep_way(place, arrivals);
        Playback::new(alloc, seat, back, self.rate, self.period)
    }

    /// Opens a reader of the capture ring. `NotSupported` comes exactly where there is none, with the ring as it was.
    pub(crate) fn open_reader(&mut self, alloc: Global) -> Result<Recording, PcmError>
        ensures keeps { KeepsRing None self.old self.new }
        ensures gives { IfOk result (λ reader. GivesReader self.new reader) }
        ensures only { IfErr result (λ e. (e ≡ PcmError.NotSupported)
            × (self.new.capture ≡ None)) }
    {
        let Some(seat) = &mut self.capture else {
            return Err(PcmError::NotSupported);
        };
        let seat = seat.split();
        Ok(Recording::new(alloc, seat, self.rate))
    }

    // Takes the seats back that came since the last time.
    fn collect(&mut self)
        ensures keeps { KeepsRing None self.old self.new }
        ensures back { Collects self.old self.new }
    {
        for place in 0..self.ways.len() {
            self.collect_at(place);
        }
    }

    // Takes the seat back that came on the way of a place, if one did.
    fn collect_at(&mut self, place: usize)
        requires { place < places_of_lobby self.old.lobby }
        ensures keeps { KeepsRing None self.old self.new }
        ensures back { Collects self.old self.new }
    {
        let Some(mut arrivals) = self.take_way(place) else {
            return;
        };
        match arrivals.pop() {
            Ok(seat) => self.take_back(seat),
            Err(_) => self.keep_way(place, arrivals),
        }
    }

    // The way of a place, which has none afterwards.
    fn take_way(&mut self, place: usize) -> Option<Arrivals>
        requires { place < places_of_lobby self.old.lobby }
        ensures lobby { self.new.lobby ≡ self.old.lobby }
        ensures keeps { KeepsRing None self.old self.new }
        ensures leads { IfSome result
            (LeadsTo (ring_of_lobby self.new.lobby) (key_of_lobby self.new.lobby)) }
    {
        self.ways[place].take()
    }

    // Takes a seat of the ring back, where its place isn't free: it is free then.
    fn take_back(&mut self, seat: MixSeat<'static>)
        requires { IsOfRing (ring_of_lobby self.old.lobby) (key_of_lobby self.old.lobby) seat }
        ensures keeps { KeepsRing None self.old self.new }
        ensures back { Receives self.old self.new seat.entry }
    {
        if !self.lobby.can_take_back(&seat) {
            return;
        }
        self.lobby.detach(seat);
    }

    // Keeps the way of a place.
    fn keep_way(&mut self, place: usize, arrivals: Arrivals)
        requires inside { place < places_of_lobby self.old.lobby }
        requires leads { LeadsTo (ring_of_lobby self.old.lobby) (key_of_lobby self.old.lobby)
            arrivals }
        ensures lobby { self.new.lobby ≡ self.old.lobby }
        ensures keeps { KeepsRing None self.old self.new }
        ensures kept { slice_index_or self.new.ways.items place None ≡ Some arrivals.entry }
    {
        self.ways[place] = Some(arrivals);
    }

    // The seat of the lowest place that is free and silent, where there is such a place.
    fn attach(&mut self) -> Result<MixSeat<'static>, PcmError>
        ensures keeps { MatchResult result
            (λ seat. KeepsRing (Some (member_of seat)) self.old self.new)
            (λ e. KeepsRing None self.old self.new) }
        ensures silent { IfOk result
            (IsSilentSeat self.new.lobby (seen_of_lobby self.new.lobby)) }
        ensures lowest { IfOk result (IsHandedOut self.new.lobby) }
        ensures none { IfErr result (λ e. (e ≡ PcmError.Again) × GivesNone self.new) }
    {
        match self.lobby.attach() {
            Ok(seat) => Ok(seat),
            Err(_) => Err(PcmError::Again),
        }
    }
}
