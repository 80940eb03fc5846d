//! What is put into the groups of a table, down the parts of a key.
ghost use Rattle.std.specs.Prelude.{◌≡◌, ℕ, ◌<◌, ◌≤◌, ◌++◌, ◌∷◌, [], List, length, IfOk, IsTrue, Option, Some, None, false};
ghost use Rattle.asound_conf.specs.Answer.{Leads};
ghost use Rattle.asound_conf.specs.Key.{part_named, without_marks};
ghost use Rattle.asound_conf.specs.Key as key;
ghost use Rattle.asound_conf.specs.Parts.{part_in, parts_in, text_in};
ghost use Rattle.asound_conf.specs.Place.{base, meets_text, put_or_clash};
ghost use Rattle.asound_conf.specs.Rows.{Alters, group_of};
ghost use Rattle.asound_conf.specs.Table.{name_in, span_in};
ghost use Rattle.asound_conf.specs.Tree.{without_name};
ghost use Rattle.asound_conf.specs.Way.{IsKeyStep, IsWay};

use crate::cell::{Name, Span};
use crate::error::ConfWhy;
use crate::part::Part;
use crate::table::Table;

/// Removes the nodes of this name from a group.
#[cold]
#[inline(never)]
fn remove_all(table: &mut Table, group: u32, name: Name)
    ensures value { group_of group table.new.rows
        ≡ without_name (name_in table.old.text name) (group_of group table.old.rows) }
    ensures text { table.new.text ≡ table.old.text }
    ensures alters { Alters group table.old.rows table.new.rows }
{
    while let Some(number) = table.find(group, table.key(name)) {
        table.remove(number);
    }
}

/// Leaves a group as a part of a key does before it goes on: without the part's node, where `!` is before the part.
#[inline(always)]
fn clear(table: &mut Table, group: u32, part: Part)
    ensures value { group_of group table.new.rows
        ≡ base (part_in table.old.text part) (group_of group table.old.rows) }
    ensures text { table.new.text ≡ table.old.text }
    ensures alters { Alters group table.old.rows table.new.rows }
{
    if part.removes {
        remove_all(table, group, part.name);
    }
}

/// Puts a text under a name: where a text is, or at the end of the group. It refuses with `Kind` where a group is.
#[inline(always)]
fn put_text(table: &mut Table, group: u32, name: Name, text: Span) -> Result<u32, ConfWhy>
    requires { group < length table.old.rows }
    ensures value { Leads result (group_of group table.new.rows)
        (put_or_clash (Some (span_in table.old.text text))
        (part_named (name_in table.old.text name) ∷ [])
        (group_of group table.old.rows)) }
    ensures text { table.new.text ≡ table.old.text }
    ensures alters { Alters group table.old.rows table.new.rows }
{
    let Some(number) = table.find(group, table.key(name)) else {
        return table.push(group, name, Some(text));
    };
    if table.is_group(number) {
        return Err(ConfWhy::Kind);
    }
    table.set_text(number, text);
    Ok(number)
}

/// The number of the group of this name in another one. It is added at the end where there is none. It refuses with `Kind`
/// where a text is.
#[inline(always)]
fn put_group(table: &mut Table, group: u32, name: Name) -> Result<u32, ConfWhy>
    requires { group < length table.old.rows }
    ensures value { Leads result (group_of group table.new.rows)
        (put_or_clash None (part_named (name_in table.old.text name) ∷ [])
        (group_of group table.old.rows)) }
    ensures step { IfOk result (λ n. IsKeyStep table.new.rows group
        (part_named (name_in table.old.text name)) n) }
    ensures text { table.new.text ≡ table.old.text }
    ensures alters { Alters group table.old.rows table.new.rows }
{
    let Some(number) = table.find(group, table.key(name)) else {
        return table.push(group, name, None);
    };
    if table.is_group(number) {
        Ok(number)
    } else {
        Err(ConfWhy::Kind)
    }
}

/// Puts an item's text, or a group where it has none, under a name.
#[inline(always)]
fn put_here(table: &mut Table, group: u32, name: Name, text: Option<Span>) -> Result<u32, ConfWhy>
    requires { group < length table.old.rows }
    ensures value { Leads result (group_of group table.new.rows)
        (put_or_clash (text_in table.old.text text) (part_named (name_in table.old.text name) ∷ [])
        (group_of group table.old.rows)) }
    ensures step { IfOk result (λ n. text ≡ None → IsKeyStep table.new.rows group
        (part_named (name_in table.old.text name)) n) }
    ensures text { table.new.text ≡ table.old.text }
    ensures alters { Alters group table.old.rows table.new.rows }
{
    match text {
        Some(text) => put_text(table, group, name, text),
        None => put_group(table, group, name),
    }
}

/// Puts an item's text, or a group where it has none, down the parts of its key, none of which but the last meets a text. It
/// gives the number of its row. Where a node of the other kind is at the end of the parts, it refuses with `Kind`.
#[inline(never)]
fn put_path(
    table: &mut Table,
    group: u32,
    parts: &[Part],
    text: Option<Span>,
) -> Result<u32, ConfWhy>
    requires some { 1 ≤ length parts.now }
    requires inside { group < length table.old.rows }
    requires open { meets_text (parts_in table.old.text parts.now)
        (group_of group table.old.rows) ≡ false }
    ensures placed { (path : List key.Part) → IsWay table.old.rows 0 path group
        → Leads result (group_of 0 table.new.rows) (put_or_clash (text_in table.old.text text)
        (path ++ parts_in table.old.text parts.now) (group_of 0 table.old.rows)) }
    ensures way { (path : List key.Part) → IsWay table.old.rows 0 path group
        → IfOk result (λ n. text ≡ None
        → IsWay table.new.rows 0 (path ++ without_marks (parts_in table.old.text parts.now)) n) }
    ensures row { IfOk result (λ n. text ≡ None → (group < n) × (n < length table.new.rows)) }
    ensures kept { (path : List key.Part) (last : ℕ) → last ≤ group
        → IsWay table.old.rows 0 path last → IsWay table.new.rows 0 path last }
    ensures text { table.new.text ≡ table.old.text }
    ensures longer { length table.old.rows ≤ length table.new.rows }
{
    let [part, rest @ ..] = parts else {
        return Ok(group);
    };
    clear(table, group, *part);
    if rest.is_empty() {
        return put_here(table, group, part.name, text);
    }
    let inner = match put_group(table, group, part.name) {
        Ok(inner) => inner,
        Err(why) => return Err(why),
    };
    put_path(table, inner, rest, text)
}

/// Puts an item's text, or a group where it has none, down the parts of its key, none of which but the last meets a text. It
/// gives the number of its row. Where a node of the other kind is at the end of the parts, it refuses with `Kind`.
/// Most keys have one part, as the values of lists: their nodes are put without a call that goes down.
#[inline(always)]
pub fn put(
    table: &mut Table,
    group: u32,
    parts: &[Part],
    text: Option<Span>,
) -> Result<u32, ConfWhy>
    requires some { 1 ≤ length parts.now }
    requires inside { group < length table.old.rows }
    requires open { meets_text (parts_in table.old.text parts.now)
        (group_of group table.old.rows) ≡ false }
    ensures placed { (path : List key.Part) → IsWay table.old.rows 0 path group
        → Leads result (group_of 0 table.new.rows) (put_or_clash (text_in table.old.text text)
        (path ++ parts_in table.old.text parts.now) (group_of 0 table.old.rows)) }
    ensures way { (path : List key.Part) → IsWay table.old.rows 0 path group
        → IfOk result (λ n. text ≡ None
        → IsWay table.new.rows 0 (path ++ without_marks (parts_in table.old.text parts.now)) n) }
    ensures row { IfOk result (λ n. text ≡ None → (group < n) × (n < length table.new.rows)) }
    ensures kept { (path : List key.Part) (last : ℕ) → last ≤ group
        → IsWay table.old.rows 0 path last → IsWay table.new.rows 0 path last }
    ensures text { table.new.text ≡ table.old.text }
    ensures longer { length table.old.rows ≤ length table.new.rows }
{
    let [part, rest @ ..] = parts else {
        return Ok(group);
    };
    if rest.is_empty() {
        clear(table, group, *part);
        return put_here(table, group, part.name, text);
    }
    put_path(table, group, parts, text)
}

/// Whether a part of a key before the last meets a text.
#[tactic(auto, unfolding(crate::specs::Place::meets_text))]
pub fn meets_text(table: &Table, group: u32, parts: &[Part]) -> bool
    ensures { result
        ≡ meets_text (parts_in table.now.text parts.now) (group_of group table.now.rows) }
{
    let [part, rest @ ..] = parts else {
        return false;
    };
    if rest.is_empty() {
        return false;
    }
    if part.removes {
        return false;
    }
    match table.find(group, table.key(part.name)) {
        Some(number) => !table.is_group(number) || meets_text(table, number, rest),
        None => false,
    }
}
