//! The table of the nodes of a configuration: the cells, and the buckets in which they are sought.
ghost use Rattle.std.specs.Prelude.{◌≡◌, ◌<◌, ◌≤◌, ◌+◌, ◌∷◌, [], count_by, drop, fold, is_none, length, map, option_map, bytes_eq, set, false, IfOk, OnOk, IfErr, OnErr, IfSome, IfNone, vec_len};
ghost use Rattle.std.specs.Fmt.{decimal};
ghost use Rattle.asound_conf.specs.Device.{count_of_names};
ghost use Rattle.asound_conf.specs.Rows.{group_of, is_in, no_row, row_at, with_row, IsAbsent, IsNode};
ghost use Rattle.asound_conf.specs.Table.{IsTable, bucket_of, cell_at, content_of, contents_of, fits, hash_by, hash_of, is_live, text_bytes, lacks, hash_with_byte, name_in, new_row, no_number, content_with, parent_of, removed_row, cell_row, span_in, value_in};

use crate::cell::{Cell, ConfText, Content, Name, Span};
use crate::error::ConfWhy;
use crate::number::is_decimal_of;
use std::alloc::{AllocError, Global};
use std::marker::Model;
use text_words::decimal_of;

/// The number of no cell.
const NO_NUMBER: u32 = 0xFFFF_FFFF;

/// The bytes of a text that a span is.
pub fn span_in(text: &[u8], span: Span) -> &[u8]
    ensures { result.now ≡ span_in text.now span }
{
    let start = (span.start as usize).min(text.len());
    let rest = &text[start..];
    let count = (span.count as usize).min(rest.len());
    &rest[..count]
}

/// A cell's name as one that is sought.
fn key_in(text: &[u8], name: Name) -> ConfText<'_>
    ensures { text_bytes result ≡ name_in text.now name }
{
    match name {
        Name::Bytes(span) => ConfText::Bytes(span_in(text, span)),
        Name::Number(number) => ConfText::Number(number),
    }
}

/// A hash of some bytes.
fn hash_bytes(name: &[u8]) -> u32
    ensures { result ≡ fold hash_with_byte 0 name.now }
{
    name.iter().fold(0u32, |hash, byte| {
        hash.wrapping_add(u32::from(*byte))
            .wrapping_mul(0x9E37_79B1)
    })
}

/// A hash of a group's number and a name. It is near the hash of the group with the next number and the same name, and, for
/// a name that is a number, near that of the next number in the same group: cells that follow each other are mostly near
/// each other in the buckets.
fn hash_by(group: u32, number: Option<u64>, name: &[u8]) -> u32
    ensures { result ≡ hash_by group number name.now }
{
    match number {
        Some(number) => group
            .wrapping_mul(8)
            .wrapping_add((number % 0x1_0000_0000) as u32),
        None => group.wrapping_add(hash_bytes(name)),
    }
}

/// A hash of a group's number and a name that is the decimal text of a number.
fn hash_of_number(group: u32, number: u32) -> u32
    ensures { result ≡ hash_of group (decimal number) }
{
    hash_by(group, Some(u64::from(number)), &[])
}

/// A hash of a group's number and a name.
fn hash_of(group: u32, key: ConfText<'_>) -> u32
    ensures { result ≡ hash_of group (text_bytes key.entry) }
{
    match key {
        ConfText::Bytes(name) => hash_by(group, decimal_of(u64::MAX, name), name),
        ConfText::Number(number) => hash_of_number(group, number),
    }
}

/// The bucket of a group's number and a name, where there are so many: they are a power of two.
#[tactic(auto, unfolding(crate::specs::Table::bucket_of))]
fn bucket_of(buckets: usize, group: u32, key: ConfText<'_>) -> usize
    requires { 0 < buckets }
    ensures value { result ≡ bucket_of buckets group (text_bytes key.entry) }
    ensures within { result < buckets }
{
    hash_of(group, key) as usize & (buckets - 1)
}

/// Whether two numbers have the same decimal text.
fn is_same_number(number: u32, other: u32) -> bool
    ensures { result ≡ bytes_eq (decimal number) (decimal other) }
{
    number == other
}

/// Whether a cell's name is the one that is sought.
fn is_named(text: &[u8], name: Name, key: ConfText<'_>) -> bool
    ensures { result ≡ bytes_eq (name_in text.now name) (text_bytes key.entry) }
{
    match (key_in(text, name), key) {
        (ConfText::Bytes(name), ConfText::Bytes(other)) => name == other,
        (ConfText::Bytes(name), ConfText::Number(number)) => is_decimal_of(name, u64::from(number)),
        (ConfText::Number(number), ConfText::Bytes(name)) => is_decimal_of(name, u64::from(number)),
        (ConfText::Number(number), ConfText::Number(other)) => is_same_number(number, other),
    }
}

/// Whether a cell is a node of a group.
fn is_in(cell: Cell, group: u32) -> bool
    ensures { result ≡ is_in group (parent_of cell.parent cell.content) }
{
    match cell.content {
        Content::Removed => false,
        Content::Text(_) | Content::Group(_) => cell.parent != NO_NUMBER && cell.parent == group,
    }
}

/// Whether a cell is the node that is sought in a group.
fn fits(text: &[u8], cell: Cell, group: u32, key: ConfText<'_>) -> bool
    ensures { result ≡ fits group (text_bytes key.entry) (cell_row text.now cell) }
{
    is_in(cell, group) && is_named(text, cell.name, key)
}

/// Whether a number is sought that is past the names of a group.
fn lacks(content: Content, key: ConfText<'_>) -> bool
    ensures { result ≡ lacks content key.entry }
{
    match (content, key) {
        (Content::Group(numbers), ConfText::Number(number)) => numbers <= number
            && number < NO_NUMBER,
        _ => false,
    }
}

/// The number of the last cell in its bucket that is the node of this name in a group.
#[inline(never)]
fn last_in_bucket(
    text: &[u8],
    cells: &[Cell],
    heads: &[u32],
    group: u32,
    key: ConfText<'_>,
) -> Option<u32>
    requires { IsTable text.now cells.now heads.now }
    ensures some { IfSome result
        (λ n. IsNode (map (cell_row text.now) cells.now) group (text_bytes key.entry) n) }
    ensures none { IfNone result
        (IsAbsent (map (cell_row text.now) cells.now) group (text_bytes key.entry)) }
{
    let bucket = bucket_of(heads.len(), group, key);
    let mut at = heads[bucket];
    while at != 0 {
        let cell = cells[at as usize];
        if fits(text, cell, group, key) {
            return Some(at);
        }
        at = cell.earlier;
    }
    None
}

/// The number of the node of this name in a group.
fn find(text: &[u8], cells: &[Cell], heads: &[u32], group: u32, key: ConfText<'_>) -> Option<u32>
    requires { IsTable text.now cells.now heads.now }
    ensures some { IfSome result
        (λ n. IsNode (map (cell_row text.now) cells.now) group (text_bytes key.entry) n) }
    ensures none { IfNone result
        (IsAbsent (map (cell_row text.now) cells.now) group (text_bytes key.entry)) }
{
    if (group as usize) < cells.len() && lacks(cells[group as usize].content, key) {
        return None;
    }
    last_in_bucket(text, cells, heads, group, key)
}

/// How many of some cells are nodes of a group.
fn count_among(cells: &[Cell], group: u32) -> usize
    ensures value { result ≡ count_by (λ c. is_in group (parent_of c.parent c.content)) cells.now }
    ensures most { result ≤ length cells.now }
{
    cells.iter().filter(|cell| is_in(**cell, group)).count()
}

/// How many nodes a group has: they come after it.
fn count_in(cells: &[Cell], group: u32) -> u32
    requires { length cells.now ≤ no_number }
    ensures { result ≡ count_by (λ c. is_in group (parent_of c.parent c.content))
        (drop (group + 1) cells.now) }
{
    let first = (group as usize + 1).min(cells.len());
    count_among(&cells[first..], group) as u32
}

/// What a group's cell has, where the group gets this name.
fn noted(content: Content, name: Name) -> Content
    ensures { result ≡ content_with content name }
{
    match (content, name) {
        (Content::Text(span), _) => Content::Text(span),
        (Content::Group(_), Name::Bytes(_)) => Content::Group(NO_NUMBER),
        (Content::Group(numbers), Name::Number(number)) => {
            if number < NO_NUMBER {
                Content::Group(numbers.max(number + 1))
            } else {
                Content::Group(NO_NUMBER)
            }
        }
        (Content::Removed, _) => Content::Removed,
    }
}

/// The content of a new cell.
fn content_of(value: Option<Span>) -> Content
    ensures { result ≡ content_of value }
{
    match value {
        Some(span) => Content::Text(span),
        None => Content::Group(0),
    }
}

/// Adds a cell, and gives its number.
fn add(
    text: &[u8],
    cells: &mut Vec<Cell>,
    heads: &mut Vec<u32>,
    parent: u32,
    name: Name,
    value: Option<Span>,
) -> Result<u32, ConfWhy>
    requires table { IsTable text.now cells.old.items heads.old.items }
    requires parent { parent < vec_len cells.old }
    ensures table { IsTable text.now cells.new.items heads.new.items }
    ensures rows { OnOk result (contents_of text.now cells.new.items
        ≡ with_row (new_row text.now parent name value) (contents_of text.now cells.old.items)) }
    ensures number { IfOk result (λ n. n ≡ vec_len cells.old) }
    ensures kept { OnErr result (cells.new.items ≡ cells.old.items) }
    ensures memory { IfErr result (λ why. why ≡ ConfWhy.Memory) }
{
    let number = cells.len();
    if number >= NO_NUMBER as usize {
        return Err(ConfWhy::Memory);
    }
    let bucket = bucket_of(heads.len(), parent, key_in(text, name));
    let cell = Cell {
        parent,
        name,
        content: content_of(value),
        earlier: heads[bucket],
    };
    cells.push(cell)?;
    heads[bucket] = number as u32;
    let at = parent as usize;
    let content = noted(cells[at].content, name);
    cells[at] = with_content(cells[at], content);
    Ok(number as u32)
}

/// A cell with another content.
fn with_content(cell: Cell, content: Content) -> Cell
    ensures { result ≡ record cell { content = content } }
{
    Cell {
        parent: cell.parent,
        name: cell.name,
        content,
        earlier: cell.earlier,
    }
}

/// Takes a cell that was removed off its bucket, where it is the last one there: so a name that is removed and added again
/// and again is found at once.
fn forget(text: &[u8], cells: &[Cell], heads: &mut Vec<u32>, number: u32)
    requires table { IsTable text.now cells.now heads.old.items }
    requires inside { number < length cells.now }
    requires gone { is_live (cell_at cells.now number).content ≡ false }
    ensures { IsTable text.now cells.now heads.new.items }
{
    let cell = cells[number as usize];
    let bucket = bucket_of(heads.len(), cell.parent, key_in(text, cell.name));
    if number == 0 || heads[bucket] != number {
        return;
    }
    heads[bucket] = cell.earlier;
}

/// Removes a cell from its group.
fn remove(text: &[u8], cells: &mut Vec<Cell>, heads: &mut Vec<u32>, number: u32)
    requires table { IsTable text.now cells.old.items heads.old.items }
    requires inside { number < length cells.old.items }
    ensures table { IsTable text.now cells.new.items heads.new.items }
    ensures rows { contents_of text.now cells.new.items ≡ record {
      text = text.now;
      rows = set
          (contents_of text.now cells.old.items).rows number
          (removed_row (row_at (contents_of text.now cells.old.items).rows number));
    } }
{
    let at = number as usize;
    cells[at] = with_content(cells[at], Content::Removed);
    forget(text, cells.as_slice(), heads, number);
}

/// How many buckets a table of a text of so many bytes has: a power of two.
fn buckets_for(bytes: usize) -> usize
    ensures { 0 < result }
{
    if bytes < 4096 {
        1024
    } else if bytes < 65_536 {
        16_384
    } else {
        262_144
    }
}

/// The cells of a text and of the nodes that were read from it. Contracts see the text, and the row that each cell is.
#[derive(Drop)]
pub struct Table {
    /// The text.
    text: Vec<u8>,
    /// The cells, of which the first is the text's own group.
    cells: Vec<Cell>,
    /// The last cell of each bucket, 0 where it has none.
    heads: Vec<u32>,
}

impl Model for Table {
    ghost use Rattle.asound_conf.specs.Rows.{Contents};

    ghost Value = { Contents };

    ghost use Rattle.asound_conf.specs.Table.{IsTable, contents_of};

    ghost view = { λ table. contents_of table.text.items table.cells.items };

    ghost invariant = { λ table. IsTable table.text.items table.cells.items table.heads.items };
}

impl Table {
    /// The table of a text, before anything is read from it.
    pub fn new(alloc: Global, text: &[u8]) -> Result<Table, AllocError>
        ensures { IfOk result (λ table. table ≡ record { text = text.now; rows = no_row ∷ [] }) }
    {
        let text = text.to_vec(alloc)?;
        // A value and a list of one value, as `1[1]`, have three cells in four bytes, and no text has more to a byte, but for
        // the brackets that are open at its end: so the cells never move.
        let mut cells = Vec::with_capacity(alloc, text.len() / 4 * 3 + 16)?;
        cells.push(Cell {
            parent: NO_NUMBER,
            name: Name::Bytes(Span { start: 0, count: 0 }),
            content: Content::Group(0),
            earlier: 0,
        })?;
        let heads = vec![in alloc; 0u32; buckets_for(text.len())]?;
        Ok(Table { text, cells, heads })
    }

    /// A name as one that is sought.
    pub fn key(&self, name: Name) -> ConfText<'_>
        ensures { text_bytes result ≡ name_in self.now.text name }
    {
        key_in(self.text.as_slice(), name)
    }

    /// The number of the node of this name in a group.
    pub fn find(&self, group: u32, key: ConfText<'_>) -> Option<u32>
        ensures some { IfSome result (λ n. IsNode self.now.rows group (text_bytes key.entry) n) }
        ensures none { IfNone result (IsAbsent self.now.rows group (text_bytes key.entry)) }
    {
        find(
            self.text.as_slice(),
            self.cells.as_slice(),
            self.heads.as_slice(),
            group,
            key,
        )
    }

    /// The text of a node, where it is no group.
    pub fn text_of(&self, number: u32) -> Option<&[u8]>
        requires { number < length self.now.rows }
        ensures { option_map (λ t. t.now) result ≡ (row_at self.now.rows number).value }
    {
        match self.cells[number as usize].content {
            Content::Text(span) => Some(span_in(self.text.as_slice(), span)),
            Content::Group(_) => None,
            Content::Removed => None,
        }
    }

    /// Whether a node is a group.
    pub fn is_group(&self, number: u32) -> bool
        requires { number < length self.now.rows }
        ensures { result ≡ is_none (row_at self.now.rows number).value }
    {
        self.text_of(number).is_none()
    }

    /// The text that the table is of.
    pub fn text(&self) -> &[u8]
        ensures { result.now ≡ self.now.text }
    {
        self.text.as_slice()
    }

    /// How many nodes there are, with the text's own group and those that were removed: their numbers are below this one.
    pub fn len(&self) -> u32
        ensures { result ≡ length self.now.rows }
    {
        self.cells.len() as u32
    }

    /// Whether a node is one of a group.
    pub fn is_node_of(&self, number: u32, group: u32) -> bool
        requires { number < length self.now.rows }
        ensures { result ≡ is_in group (row_at self.now.rows number).parent }
    {
        is_in(self.cells[number as usize], group)
    }

    /// The name of a node.
    pub fn name_of(&self, number: u32) -> ConfText<'_>
        requires { number < length self.now.rows }
        ensures { text_bytes result ≡ (row_at self.now.rows number).name }
    {
        key_in(self.text.as_slice(), self.cells[number as usize].name)
    }

    /// How many nodes a group has.
    pub fn count(&self, group: u32) -> u32
        ensures { result ≡ count_of_names (group_of group self.now.rows) }
    {
        count_in(self.cells.as_slice(), group)
    }

    /// Adds a node to a group, at its end, and gives its number: a text, or a group without names, where it is given none. It fails only
    /// for want of memory, which the table of a text that is read can't use up by its numbers.
    pub fn push(&mut self, parent: u32, name: Name, text: Option<Span>) -> Result<u32, ConfWhy>
        requires { parent < length self.old.rows }
        ensures number { IfOk result (λ n. n ≡ length self.old.rows) }
        ensures rows { OnOk result (self.new ≡ with_row
            (new_row self.old.text parent name text) self.old) }
        ensures kept { OnErr result (self.new ≡ self.old) }
        ensures memory { IfErr result (λ why. why ≡ ConfWhy.Memory) }
    {
        add(
            self.text.as_slice(),
            &mut self.cells,
            &mut self.heads,
            parent,
            name,
            text,
        )
    }

    /// Puts another text in the place of a node's.
    pub fn set_text(&mut self, number: u32, text: Span)
        requires inside { number < length self.old.rows }
        requires text { is_none (row_at self.old.rows number).value ≡ false }
        ensures { self.new ≡ record {
          text = self.old.text;
          rows = set self.old.rows number
              (record (row_at self.old.rows number) { value = Some (span_in self.old.text text) });
        } }
    {
        let at = number as usize;
        self.cells[at] = with_content(self.cells[at], Content::Text(text));
    }

    /// Removes a node from its group.
    pub fn remove(&mut self, number: u32)
        requires { number < length self.old.rows }
        ensures { self.new ≡ record {
          text = self.old.text;
          rows = set self.old.rows number
              (record (row_at self.old.rows number) { parent = None; value = None });
        } }
    {
        remove(
            self.text.as_slice(),
            &mut self.cells,
            &mut self.heads,
            number,
        );
    }
}
