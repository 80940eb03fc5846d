//! Where a reader of a configuration text is among its brackets.

/// A `{` or `[` that is open, or the text itself.
#[derive(Clone, Copy)]
pub struct Bracket {
    /// The number of its line.
    pub line: u32,
    /// Whether it is a `[`, whose values have numbers for names.
    pub array: bool,
    /// How many values it has so far, where it is a `[`.
    pub values: u32,
    /// How many parts of keys lead to its group.
    pub names: usize,
    /// The number of its group.
    pub group: u32,
}

/// What may come next.
#[derive(Clone, Copy)]
pub enum Awaits {
    /// A key, or a value of `[ ]`, and a `,` or `;` before it where `separator` says so.
    Item { separator: bool },
    /// The value of a key, and an `=` before it where `equals` says so.
    Value { equals: bool },
}
