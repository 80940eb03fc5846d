//! Worked runs: for small scripts, the report and the samples that their runs leave, worked out by hand and compared with what
//! the definitions of `lab_run` give.
//!
//! They stand in tables, each with a lemma that computes its rows, most from the script's text to the report's text. `proofs/Playback.antt` has runs of clients,
//! `proofs/Capture.antt` those of readers, `proofs/Stops.antt` a client that stops before each of its steps, `proofs/Sizes.antt`
//! runs at the limits, `proofs/Workload.antt` a workload, and `proofs/Mixed.antt` the two runs of a phase in which a client and
//! the card have lines. The files named after rows (`proofs/ClientRows.antt`, ..) have the reports of small sessions
//! (`proofs/Sessions.antt`). The crate has no code.
#![tactic(auto)]
