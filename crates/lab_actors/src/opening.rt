//! With what an actor is opened.
ghost use Rattle.std.specs.Prelude.{◌≡◌, Option, IfSome};
ghost use Rattle.wav_io.specs.Sound.{Sound};
ghost use Rattle.lab_run.specs.Openings.{IsClientOpening, IsReaderOpening};
ghost use Rattle.lab_run.specs.Stage.{Setup};
ghost use Rattle.lab_lines.specs.Limits.{IsCardLine, IsClientLine, IsReaderLine};
ghost use Rattle.lab_lines.specs.declared.script.CardLine.{CardLine};
ghost use Rattle.lab_lines.specs.declared.script.ClientLine.{ClientLine};
ghost use Rattle.lab_lines.specs.declared.script.ReaderLine.{ReaderLine};
ghost use Rattle.lab_actors.specs.Usable.{IsUsable};

use crate::bound::{client_bindings, reader_bindings};
use crate::configuration::{Wanted, configuration};
use crate::params::params_of;
use bindings::Bindings;
use hw_space::Config;
use lab_lines::{CardLine, ClientLine, ReaderLine};
use std::marker::Model;
use sw_limits::SwParams;
use wav_io::Wav;

/// With what a client or reader is opened: its configuration (`snd_pcm_hw_params`), its bindings, its software parameters
/// (`snd_pcm_sw_params`), and how many frames past the card's position a client's start is; a reader's lead is 0.
///
/// Contracts see it as the record `Setup` of a run.
#[derive(Clone, Copy, Debug, PartialEq, Eq)]
pub struct Opening {
    pub config: Config,
    pub bindings: Bindings,
    pub params: SwParams,
    pub lead: u32,
}

impl Model for Opening {
    ghost use Rattle.lab_run.specs.Stage.{Setup};

    ghost Value = { Setup };

    ghost view = { λ o. record {
      config = o.config;
      bindings = o.bindings;
      params = o.params;
      lead = o.lead;
    } };

    ghost inverse = { λ s. record {
      config = s.config;
      bindings = s.bindings;
      params = s.params;
      lead = s.lead;
    } };
}

/// With what a client is opened. There is nothing exactly where its opening is refused with EINVAL: where the card has no
/// configuration for its file and its line, or where its line binds another number of channels than its file has.
pub fn client_opening(card: &CardLine, line: &ClientLine, wav: &Wav) -> Option<Opening>
    requires card { IsCardLine card.now }
    requires line { IsClientLine card.now line.now }
    ensures opening { IsClientOpening card.now line.now wav.now result }
    ensures usable { IfSome result (IsUsable card.now.channels card.now.ring) }
{
    let wanted = Wanted {
        channels: u32::from(wav.channels),
        rate: wav.rate,
        period: line.period,
        buffer: line.buffer,
    };
    let bindings = client_bindings(line, wav)?;
    match configuration(card, &wanted) {
        Err(_) => None,
        Ok(config) => Some(Opening {
            config,
            bindings,
            params: params_of(&config, line.start, line.stop),
            lead: line.lead,
        }),
    }
}

/// With what a reader is opened. There is nothing exactly where its opening is refused with EINVAL: where the card has no
/// configuration for its line.
pub fn reader_opening(card: &CardLine, line: &ReaderLine) -> Option<Opening>
    requires card { IsCardLine card.now }
    requires line { IsReaderLine card.now line.now }
    ensures opening { IsReaderOpening card.now line.now result }
    ensures usable { IfSome result (IsUsable card.now.channels card.now.ring) }
{
    let bindings = reader_bindings(card, line);
    let wanted = Wanted {
        channels: u32::from(bindings.len()),
        rate: card.rate,
        period: line.period,
        buffer: line.buffer,
    };
    match configuration(card, &wanted) {
        Err(_) => None,
        Ok(config) => Some(Opening {
            config,
            bindings,
            params: params_of(&config, line.start, line.stop),
            lead: 0,
        }),
    }
}

/// With what a client or reader is opened is settled by the card, its line and its file. A fact for contracts; it does nothing.
pub fn openings_are_one()
    ensures clients { (card : CardLine) (line : ClientLine) (wav : Sound) (a b : Option Setup) →
        IsClientOpening card line wav a → IsClientOpening card line wav b → a ≡ b }
    ensures readers { (card : CardLine) (line : ReaderLine) (a b : Option Setup) →
        IsReaderOpening card line a → IsReaderOpening card line b → a ≡ b }
{}
