//! Names with their bytes, of which the first of a name counts.
ghost use Rattle.std.specs.Prelude.{◌≡◌, ◌≤◌, ◌++◌, length, take, drop, position, bytes_eq, is_some, None, Some, IfSome, IsSome, IfErr, OnOk, OnErr, option_map};
ghost use Rattle.std.specs.Option.{option_copied};
ghost use Rattle.lab_shelf.specs.Counts.{IsAsForeseen};
ghost use Rattle.lab_shelf.specs.Files.{bytes_under, with_file, with_change, with_first_bytes};
ghost use Rattle.lab_shelf.specs.States.{files_of};

use crate::fault::ShelfFault;
use std::alloc::AllocError;

/// The bytes of `content` from the byte `from` on: `most` of them, or as many as there are.
pub(crate) fn cut(content: &[u8], from: u64, most: u64) -> &[u8]
    ensures { result.now ≡ take most (drop from content.now) }
{
    let rest = &content[content.len().min(from as usize)..];
    &rest[..rest.len().min(most as usize)]
}

/// Whether an entry has this name.
fn is_named(entry: &(Vec<u8>, Vec<u8>), name: &[u8]) -> bool
    ensures { result ≡ bytes_eq name.now entry.now.0.items }
{
    name == entry.0.as_slice()
}

/// The index of the first entry of this name.
fn place_of(entries: &[(Vec<u8>, Vec<u8>)], name: &[u8]) -> Option<usize>
    ensures { result ≡ position (λ entry. bytes_eq name.now entry.0.items) entries.now }
{
    entries.iter().position(|entry| is_named(entry, name))
}

/// What the first entry of this name holds.
pub(crate) fn content_of<'a>(entries: &'a [(Vec<u8>, Vec<u8>)], name: &[u8]) -> Option<&'a [u8]>
    ensures { option_copied result ≡ bytes_under (files_of entries.now) name.now }
{
    match place_of(entries, name) {
        Some(place) => Some(entries[place].1.as_slice()),
        None => None,
    }
}

/// Adds an entry at the end. Nothing changes where there is no memory for it.
fn add_entry(
    entries: &mut Vec<(Vec<u8>, Vec<u8>)>,
    name: &[u8],
    content: Vec<u8>,
) -> Result<(), AllocError>
    ensures ok { OnOk result
        (position (λ entry. bytes_eq name.now entry.0.items) entries.old.items ≡ None
        → files_of entries.new.items
        ≡ with_file (files_of entries.old.items) name.now content.items) }
    ensures err { OnErr result (entries.new.items ≡ entries.old.items) }
{
    let alloc = *entries.allocator();
    let name = Vec::from_slice(alloc, name)?;
    entries.push((name, content))?;
    Ok(())
}

/// Makes an entry hold other bytes.
fn put_content(content: &mut Vec<u8>, bytes: Vec<u8>)
    ensures { content.new ≡ bytes }
{
    *content = bytes;
}

/// Makes the first entry of this name hold these bytes, or adds one. Nothing changes where there is
/// no memory for it.
pub(crate) fn put_file(
    entries: &mut Vec<(Vec<u8>, Vec<u8>)>,
    name: &[u8],
    bytes: &[u8],
) -> Result<(), AllocError>
    ensures ok { OnOk result
        (files_of entries.new.items ≡ with_file (files_of entries.old.items) name.now bytes.now) }
    ensures err { OnErr result (entries.new.items ≡ entries.old.items) }
{
    let alloc = *entries.allocator();
    let content = Vec::from_slice(alloc, bytes)?;
    match place_of(entries, name) {
        Some(place) => {
            put_content(&mut entries[place].1, content);
            Ok(())
        }
        None => add_entry(entries, name, content),
    }
}

/// Adds bytes at the end of what an entry holds. Nothing changes where there is no memory for it.
pub(crate) fn extend(content: &mut Vec<u8>, bytes: &[u8]) -> Result<(), ShelfFault>
    ensures ok { OnOk result (content.new.items ≡ content.old.items ++ bytes.now) }
    ensures err { OnErr result (content.new.items ≡ content.old.items) }
    ensures memory { IfErr result (λ fault. fault ≡ ShelfFault.Memory) }
{
    content.extend_from_slice(bytes)?;
    Ok(())
}

/// Adds bytes at the end of the first entry of this name. It fails where there is none; where there is
/// no memory for it, nothing changes.
pub(crate) fn append_to(
    entries: &mut [(Vec<u8>, Vec<u8>)],
    name: &[u8],
    bytes: &[u8],
) -> Result<(), ShelfFault>
    ensures ok { OnOk result
        (files_of entries.new ≡ with_change (λ content. content ++ bytes.now)
        (files_of entries.old) name.now) }
    ensures err { OnErr result (files_of entries.new ≡ files_of entries.old) }
    ensures foreseen { IsAsForeseen result
        (Some (is_some (bytes_under (files_of entries.old) name.now))) }
{
    match place_of(entries, name) {
        Some(place) => extend(&mut entries[place].1, bytes),
        None => Err(ShelfFault::Failed),
    }
}

/// Replaces the first bytes by as many others.
fn put_front(content: &mut [u8], head: &[u8])
    requires { length head.now ≤ length content.old }
    ensures { content.new ≡ with_first_bytes head.now content.old }
{
    content[..head.len()].copy_from_slice(head);
}

/// Replaces the first bytes of what an entry holds by as many others.
fn put_head(content: &mut Vec<u8>, head: &[u8])
    requires { length head.now ≤ length content.old.items }
    ensures { content.new.items ≡ with_first_bytes head.now content.old.items }
{
    put_front(content.as_mut_slice(), head);
}

/// Replaces the first bytes of the first entry of this name, which are there, by as many others. It
/// fails where there is no such entry, and changes nothing then.
pub(crate) fn overwrite(
    entries: &mut [(Vec<u8>, Vec<u8>)],
    name: &[u8],
    head: &[u8],
) -> Result<(), ShelfFault>
    requires room { IfSome (bytes_under (files_of entries.old) name.now)
        (λ content. length head.now ≤ length content) }
    ensures ok { OnOk result
        (files_of entries.new ≡ with_change (with_first_bytes head.now)
        (files_of entries.old) name.now) }
    ensures err { OnErr result (files_of entries.new ≡ files_of entries.old) }
    ensures held { OnOk result (IsSome (bytes_under (files_of entries.old) name.now)) }
    ensures missing { OnErr result (bytes_under (files_of entries.old) name.now ≡ None) }
    ensures failed { IfErr result (λ fault. fault ≡ ShelfFault.Failed) }
{
    match place_of(entries, name) {
        Some(place) => {
            put_head(&mut entries[place].1, head);
            Ok(())
        }
        None => Err(ShelfFault::Failed),
    }
}
