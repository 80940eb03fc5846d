//! Each module tries one crate: what no clause says of it, and no session shows.
mod captures;
mod cards;
mod lobbies;
mod players;
mod sums;
