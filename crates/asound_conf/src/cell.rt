//! The cells of a table of a configuration, and their names.
ghost use Rattle.std.specs.Prelude.{◌≡◌};

/// Some bytes of a text: so many, from this place on.
#[derive(Clone, Copy)]
pub struct Span {
    pub start: u32,
    pub count: u32,
}

/// The name of a node in its group.
#[derive(Clone, Copy)]
pub enum Name {
    /// These bytes of the text.
    Bytes(Span),
    /// The decimal text of a number: so are the values of `[ ]` named.
    Number(u32),
}

/// The name of a node in its group. Contracts see its bytes.
#[derive(Clone, Copy)]
pub enum ConfText<'a> {
    /// These bytes.
    Bytes(&'a [u8]),
    /// The decimal text of a number: so are the values of `[ ]` named, from 0.
    Number(u32),
}

/// What a cell has.
#[derive(Clone, Copy)]
pub enum Content {
    /// These bytes of the text.
    Text(Span),
    /// A group. Each of its names is the decimal text of a number below this one, where it isn't the greatest number.
    Group(u32),
    /// Nothing any more: the node was removed.
    Removed,
}

/// A node of a group, or what was one.
#[derive(Clone, Copy)]
pub struct Cell {
    /// The number of its group's cell, or the greatest number, where it is in none.
    pub parent: u32,
    /// Its name.
    pub name: Name,
    /// What it has.
    pub content: Content,
    /// The number of the cell before it in the same bucket, 0 where there is none.
    pub earlier: u32,
}
