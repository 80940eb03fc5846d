//! Shelves and sinks, and what a run reads over a shelf.
mod inputs;
mod shelves;
