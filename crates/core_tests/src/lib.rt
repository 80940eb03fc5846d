//! Calls of the libraries with values worked out by hand or by ALSA's header files: those that no program makes, each once, and those
//! of the rings' words.
#![tactic(auto)]

#[cfg(test)]
mod tests;
