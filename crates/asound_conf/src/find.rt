//! The device of a name in a configuration.
ghost use Rattle.std.specs.Prelude.{◌≡◌, IfOk};
ghost use Rattle.asound_conf.specs.Device.{IsCard, device_of};

use crate::conf::Conf;
use crate::error::ConfError;
use crate::plugin::{Device, device_by};

/// The dmix, dsnoop or dshare device that a configuration defines as `pcm.NAME`. It takes no memory. A name is one part,
/// also where dots are in it.
///
/// The slave is a group of its own, or the name of a group of `pcm_slave`. Of the slave are read `channels` (2 where it
/// isn't given), `rate` (48000 Hz), the period in frames (`period_size`, else `period_time` in microseconds, else 1024)
/// and the ring in frames (`buffer_size`, else `periods`, else `buffer_time` in microseconds, else 8 periods); a number
/// of 0 counts as not given, and all other fields are skipped. Of the device are read `type`, and `bindings` from the
/// device's channels to those of the card.
///
/// # Errors
///
/// All on line 0, tested in this order:
///
/// - `Missing`: there is no group `pcm.NAME`, no `slave` in it, or no group `pcm_slave.SLAVE` that a text names.
/// - `PluginType`: `type` isn't dmix, dsnoop or dshare.
/// - `Format`: `format` is given and isn't S16_LE or S16.
/// - `Number`: a number field isn't a text of 1 to 10 decimal digits below 4294967296.
/// - `Range`: channels aren't 1 to 8, the rate not 4000 to 192000, the period below 16 frames, a period that was
///   computed above 16384, or the ring not 64 to 16384.
/// - `Fit`: the period is above half the ring, or doesn't divide it.
/// - `BindingKey`: `bindings` isn't a group whose n names are 0 to n - 1 as decimal texts and whose values are numbers.
/// - `BindingsEmpty`, `BindingsTooMany`, `BindingRange`, `BindingTwice`: as [`bindings::Bindings::read`] says.
pub fn device(conf: &Conf, name: &[u8]) -> Result<Device, ConfError>
    ensures value { result ≡ device_of conf.now name.now }

    // The device's card is in its ranges.
    ensures card { IfOk result (λ d. IsCard d.channels d.rate d.period d.ring) }
{
    match device_by(conf.root(), name) {
        Ok(device) => Ok(device),
        Err(why) => Err(ConfError { line: 0, why }),
    }
}
