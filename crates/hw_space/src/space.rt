//! A space: the configurations that a stream may still have.
ghost use Rattle.std.specs.Prelude.{◌≡◌, ◌≢◌, ◌↔◌, IsTrue, OnErr, IfOk};
ghost use Rattle.hw_space.specs.Narrowings.{with_refined, with_value, with_min, with_max, with_integer, with_first, with_last, interval_of, mask_of, FitsParam, LeavesNear};
ghost use Rattle.hw_space.specs.Choices.{IsChoice};
ghost use Rattle.hw_space.specs.Params.{HasInterval};
ghost use Rattle.hw_space.specs.Settled.{Configuration, IsExact, LiesInBox, Leaves, space_left};
ghost use Rattle.hw_space.specs.Widest.{widest};

use crate::choice::choose;
use crate::config::Config;
use crate::narrowing::{
    at_least, at_most, from_to, greatest_end, least_end, narrow, take_value, whole_from_to,
    whole_numbers,
};
use crate::near::take_near;
use crate::param::{Param, ParamKind};
use crate::param_box::ParamBox;
use crate::quantity::Quantity;
use crate::settle::settle;
use crate::slave::Slave;
use pcm_interval::{Empty, Interval, Mask};
use std::marker::Model;

/// The configurations that a stream may still have (`snd_pcm_hw_params_t` of alsa-lib, before one of them is chosen):
/// the values of each parameter, an interval or a mask.
#[derive(Clone, Copy)]
pub struct Space {
    ranges: ParamBox,
}

impl Model for Space {
    ghost use Rattle.hw_space.specs.declared.param_box.ParamBox.{ParamBox};
    ghost use Rattle.hw_space.specs.Proper.{IsProper};

    ghost Value = { ParamBox };

    ghost view = { λ s. s.ranges };

    ghost invariant = { λ s. IsProper s.ranges };

    ghost inverse = { λ b. record { ranges = b } };
}

impl Space {
    /// The widest space of the clients of a slave, not yet refined: access RW_INTERLEAVED, format S16_LE, 1 channel up
    /// to the slave's, its rate, a period of 16 frames up to half the ring, a buffer of 32 frames up to the ring, and 2
    /// to 1024 periods. All are whole numbers but the two times.
    pub fn widest(slave: &Slave) -> Space
        ensures widest { result ≡ widest slave.now.channels slave.now.rate slave.now.ring }

        // So refinement leaves something of it.
        ensures some { (x : Configuration) × IsExact x × LiesInBox result x }
    {
        Space {
            ranges: widest_ranges(slave),
        }
    }

    /// Narrows the space to the greatest one within it that no rule between the parameters changes
    /// (`snd_pcm_hw_refine` of alsa-lib).
    ///
    /// `Ok(true)` says that it changed. `Empty` comes exactly where no such space is left, and then the space is as
    /// before. Every configuration that the space held is held still.
    pub fn refine(&mut self) -> Result<bool, Empty>
        ensures left { Leaves self.old (space_left result self.new) }
        ensures changed { IfOk result (λ changed. IsTrue changed ↔ (self.new ≢ self.old)) }
        ensures err { OnErr result (self.new ≡ self.old) }
    {
        let mut ranges = self.ranges;
        let changed = settle(&mut ranges)?;
        self.ranges = ranges;
        Ok(changed)
    }

    /// Gives a parameter one value, and refines (`snd_pcm_hw_params_set_access` and the like). For the access and the
    /// format the value is the number of a member, below 64 (`Param::can_be`).
    ///
    /// `Empty` comes exactly where no space is left, and then the space is as before.
    pub fn set(&mut self, param: Param, value: u32) -> Result<(), Empty>
        requires { FitsParam param value }
        ensures left { Leaves (with_value self.old param value) (space_left result self.new) }
        ensures err { OnErr result (self.new ≡ self.old) }
    {
        let mut ranges = self.ranges;
        take_value(&mut ranges, param.kind(), value)?;
        self.ranges = ranges;
        Ok(())
    }

    /// Narrows a parameter to values of at least a number, and refines (`snd_pcm_hw_params_set_rate_min` and the like).
    ///
    /// `Empty` comes exactly where no space is left, and then the space is as before.
    pub fn set_min(&mut self, param: Param, value: u32) -> Result<(), Empty>
        requires { HasInterval param }
        ensures left { Leaves (with_min self.old param value) (space_left result self.new) }
        ensures err { OnErr result (self.new ≡ self.old) }
    {
        self.narrow(param.quantity(), &at_least(value))
    }

    /// Narrows a parameter to values of at most a number, and refines (`snd_pcm_hw_params_set_rate_max` and the like).
    ///
    /// `Empty` comes exactly where no space is left, and then the space is as before.
    pub fn set_max(&mut self, param: Param, value: u32) -> Result<(), Empty>
        requires { HasInterval param }
        ensures left { Leaves (with_max self.old param value) (space_left result self.new) }
        ensures err { OnErr result (self.new ≡ self.old) }
    {
        self.narrow(param.quantity(), &at_most(value))
    }

    /// Narrows a parameter to whole numbers, and refines (`snd_pcm_hw_params_set_periods_integer` and the like).
    ///
    /// `Empty` comes exactly where no space is left, and then the space is as before.
    pub fn set_integer(&mut self, param: Param) -> Result<(), Empty>
        requires { HasInterval param }
        ensures left { Leaves (with_integer self.old param) (space_left result self.new) }
        ensures err { OnErr result (self.new ≡ self.old) }
    {
        self.narrow(param.quantity(), &whole_numbers())
    }

    /// Narrows a parameter to its least end, and refines (`snd_pcm_hw_params_set_rate_first` and the like): to the
    /// point if it is closed, else to what is above it, up to the next number.
    ///
    /// `Empty` comes exactly where no space is left, and then the space is as before.
    pub fn set_first(&mut self, param: Param) -> Result<(), Empty>
        requires { HasInterval param }
        ensures left { Leaves (with_first self.old param) (space_left result self.new) }
        ensures err { OnErr result (self.new ≡ self.old) }
    {
        let quantity = param.quantity();
        let end = least_end(self.ranges.part(quantity));
        self.narrow(quantity, &end)
    }

    /// Narrows a parameter to its greatest end, and refines (`snd_pcm_hw_params_set_rate_last` and the like): to the
    /// point if it is closed, else to what is below it, down to the number before.
    ///
    /// `Empty` comes exactly where no space is left, and then the space is as before.
    pub fn set_last(&mut self, param: Param) -> Result<(), Empty>
        requires { HasInterval param }
        ensures left { Leaves (with_last self.old param) (space_left result self.new) }
        ensures err { OnErr result (self.new ≡ self.old) }
    {
        let quantity = param.quantity();
        let end = greatest_end(self.ranges.part(quantity));
        self.narrow(quantity, &end)
    }

    /// Narrows a parameter to the end that is nearest to a number, and refines (`snd_pcm_hw_params_set_rate_near` and the
    /// like).
    ///
    /// It tries `set_max` with the number and takes the greatest end, and tries `set_min` and takes the least end. It
    /// narrows to the nearer of the two as `set_last` or `set_first` does; at equal distance, which is measured to the
    /// ends' numbers, open or closed, to the lower (this library's own choice). Where one try leaves nothing, it takes
    /// the other's end.
    ///
    /// `Empty` comes exactly where both tries leave nothing, or the last narrowing does. Then the space is as before.
    pub fn set_near(&mut self, param: Param, value: u32) -> Result<(), Empty>
        requires { HasInterval param }
        ensures near { LeavesNear self.old param value (space_left result self.new) }
        ensures err { OnErr result (self.new ≡ self.old) }
    {
        let mut ranges = self.ranges;
        take_near(&mut ranges, param.quantity(), value)?;
        self.ranges = ranges;
        Ok(())
    }

    /// Chooses one configuration of the space, which stays as it is. It refines, and then takes in this order, which is
    /// this library's own: the first access, the first format, the least channels, the least rate, the period size
    /// nearest to the slave's, the greatest buffer size, the least number of periods. After each it refines.
    ///
    /// `Empty` comes exactly where one of these steps leaves nothing.
    pub fn choose(&self, slave: &Slave) -> Result<Config, Empty>
        ensures { IsChoice self.now slave.now.period result }
    {
        choose(&self.ranges, slave.period)
    }

    /// The interval of a parameter; None for the access and the format.
    pub fn interval(&self, param: Param) -> Option<Interval>
        ensures { result ≡ interval_of self.now param }
    {
        match param.kind() {
            ParamKind::Number(quantity) => Some(self.ranges.part(quantity)),
            ParamKind::Access | ParamKind::Format => None,
        }
    }

    /// The mask of the access or the format; None for any other parameter.
    pub fn mask(&self, param: Param) -> Option<Mask>
        ensures { result ≡ mask_of self.now param }
    {
        match param.kind() {
            ParamKind::Access => Some(self.ranges.access),
            ParamKind::Format => Some(self.ranges.format),
            ParamKind::Number(_) => None,
        }
    }

    /// Narrows one quantity to what it has in common with an interval, and refines.
    fn narrow(&mut self, quantity: Quantity, other: &Interval) -> Result<(), Empty>
        ensures left { Leaves (with_refined self.old quantity other.now)
            (space_left result self.new) }
        ensures err { OnErr result (self.new ≡ self.old) }
    {
        let mut ranges = self.ranges;
        narrow(&mut ranges, quantity, other)?;
        self.ranges = ranges;
        Ok(())
    }
}

/// The widest values of the parameters.
fn widest_ranges(slave: &Slave) -> ParamBox
    ensures { result ≡ widest slave.now.channels slave.now.rate slave.now.ring }
{
    let any = whole_from_to(1, u32::MAX);
    let any_time = from_to(1, u32::MAX);
    ParamBox {
        access: Mask { bits: 8 },
        format: Mask { bits: 4 },
        sample_bits: any,
        frame_bits: any,
        channels: whole_from_to(1, slave.channels as u32),
        rate: whole_from_to(slave.rate, slave.rate),
        period_time: any_time,
        period_size: whole_from_to(16, slave.ring / 2),
        period_bytes: any,
        periods: whole_from_to(2, 1024),
        buffer_time: any_time,
        buffer_size: whole_from_to(32, slave.ring),
        buffer_bytes: any,
    }
}
