//! Configuration files of the ALSA library (asound.conf): a text read as nested groups of named texts, which a caller can walk, and
//! the dmix, dsnoop and dshare devices that such a group defines.
#![tactic(auto)]

mod bracket;
mod cell;
mod channels;
mod conf;
mod error;
mod find;
mod group;
mod items;
mod line;
mod node;
mod number;
mod part;
mod plugin;
mod print;
mod reader;
mod reading;
mod table;
mod token;

pub use cell::ConfText;
pub use conf::Conf;
pub use error::{ConfError, ConfWhy};
pub use find::device;
pub use items::Items;
pub use node::{Group, Node};
pub use plugin::{Device, DeviceKind};
pub use print::print_device;
pub use reader::read_conf;
