//! The lines of a device that a configuration file of the ALSA library defines, of which the card's line is a script
//! of the lab: [`describe_device`] reads the file from a shelf.
#![tactic(auto)]

mod describe;

pub use describe::describe_device;
