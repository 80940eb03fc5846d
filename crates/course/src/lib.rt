//! Courses: what a call of a client or reader does at its port, step by step, as a small tree.
//!
//! `specs/Course.antt` has the tree and what it means that a call took it; `specs/AtPort.antt` says this of a mix port and
//! a gate, whose single steps `mix_core` defines, and `specs/AtSnoopPort.antt` of a port to captured frames and a gate, whose
//! single steps `snoop_core` defines; `specs/CourseLaws.antt` has the laws, and `specs/Gives.antt` what all results of a
//! course have.
#![tactic(auto)]
