//! A report: its rows, and what is below them.
ghost use Rattle.std.specs.Prelude.{◌≡◌};

use crate::row::Row;
use snd_base::Segment;
use std::marker::Model;

/// The rows of a report, in order. Contracts see the list of them.
#[derive(Debug, Drop)]
pub struct Rows {
    rows: Vec<Row>,
}

impl Model for Rows {
    ghost use Rattle.std.specs.Prelude.{List};
    ghost use Rattle.lab_lines.specs.declared.row.Row.{Row};

    ghost Value = { List Row };

    ghost view = { λ rows. rows.rows.items };
}

impl Rows {
    /// The report's rows, made of these.
    pub fn from_vec(rows: Vec<Row>) -> Rows
        ensures { result ≡ rows.items }
    {
        Rows { rows }
    }

    /// The rows, in order.
    pub fn as_slice(&self) -> &[Row]
        ensures { result.now ≡ self.now }
    {
        self.rows.as_slice()
    }

    /// The rows given back, as they were put in.
    pub fn into_vec(self) -> Vec<Row>
        ensures { result.items ≡ self }
    {
        let Rows { rows } = self;
        rows
    }
}

/// The segments of a report, in order, each with the number of its client, counted from 0 in the
/// order of the clients' lines. Contracts see the list of these pairs.
#[derive(Debug, Drop)]
pub struct Segments {
    segments: Vec<(u32, Segment)>,
}

impl Model for Segments {
    ghost use Rattle.std.specs.Prelude.{List, ℕ};
    ghost use Rattle.snd_base.specs.declared.places.Segment.{Segment};

    ghost Value = { List (ℕ × Segment) };

    ghost view = { λ segments. segments.segments.items };
}

impl Segments {
    /// The report's segments, made of these.
    pub fn from_vec(segments: Vec<(u32, Segment)>) -> Segments
        ensures { result ≡ segments.items }
    {
        Segments { segments }
    }

    /// The segments with their clients' numbers, in order.
    pub fn as_slice(&self) -> &[(u32, Segment)]
        ensures { result.now ≡ self.now }
    {
        self.segments.as_slice()
    }

    /// The segments with their clients' numbers given back, as they were put in.
    pub fn into_vec(self) -> Vec<(u32, Segment)>
        ensures { result.items ≡ self }
    {
        let Segments { segments } = self;
        segments
    }
}

/// The runs of a report, in order: each is the number of a reader, counted from 0 in the order of the
/// readers' lines, the number of the first frame that it took, and how many frames it took one after
/// the other. Contracts see the list of these triples.
#[derive(Debug, Drop)]
pub struct Runs {
    runs: Vec<(u32, u64, u64)>,
}

impl Model for Runs {
    ghost use Rattle.std.specs.Prelude.{List, ℕ};

    ghost Value = { List (ℕ × ℕ × ℕ) };

    ghost view = { λ runs. runs.runs.items };
}

impl Runs {
    /// The report's runs, made of these.
    pub fn from_vec(runs: Vec<(u32, u64, u64)>) -> Runs
        ensures { result ≡ runs.items }
    {
        Runs { runs }
    }

    /// The runs with their readers' numbers, in order.
    pub fn as_slice(&self) -> &[(u32, u64, u64)]
        ensures { result.now ≡ self.now }
    {
        self.runs.as_slice()
    }

    /// The runs with their readers' numbers given back, as they were put in.
    pub fn into_vec(self) -> Vec<(u32, u64, u64)>
        ensures { result.items ≡ self }
    {
        let Runs { runs } = self;
        runs
    }
}

/// What a run did.
#[derive(Debug, Drop)]
pub struct Report {
    /// What each opening, closing and line did, in the order of the script.
    pub rows: Rows,
    /// Which samples of which client were committed, and where.
    pub segments: Segments,
    /// Which frames each reader took, one after the other.
    pub runs: Runs,
    /// The number of the first frame that the card played.
    pub first: u64,
    /// How many frames the card played.
    pub frames: u64,
}
