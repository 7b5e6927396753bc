//! The effect of each line on the map, and its reply. Each line that changes the map has a small function over the entries
//! seen as bytes, so that the check refuses a mutant there, with few facts in scope.
ghost use Rattle.std.specs.Prelude.{◌≡◌, ◌≢◌, ℕ, ◌-◌, ◌<◌, ◌≤◌, false, nat_le, if◌then◌else◌, [], length, remove, reverse, slice_get, IfOk, OnOk, IfErr, OnErr, Some, None, codes, decimal, flat_map};
ghost use Rattle.std.specs.Io.KnownBytes.{Keeps, Appends};
ghost use Rattle.std.specs.Option.{option_map};
ghost use Rattle.std.specs.Str.{bytes_eq};
ghost use Rattle.starlark_hash.specs.Entries.{pair_of, value_at, match_of, without};
ghost use Rattle.starlark_hash.specs.Insert.{insert_entry};
ghost use Rattle.starlark_hash.specs.Sort.{Ascends, sorted_by_key};
ghost use Rattle.starlark_script.specs.Shown.{shown, shown_key};
ghost use Rattle.starlark_script.specs.Memory.{LacksRoom, LeavesMemory};
ghost use Rattle.starlark_script.specs.Replies.{MayNeedMemory, bytes_cmp, ended, value_text, pair_text, entry_text, reply, after};
ghost use Rattle.starlark_script.specs.ShownEntries.{entries_of};
ghost use Rattle.starlark_small.specs.Index.{unindexed};

use crate::{Line, PlayFault, write_line, write_text};
use itoa::Buffer;
use starlark_hash::Hashed;
use starlark_hash::text_key::TextKey;
use starlark_small::{IterHashed, SmallMap};
use std::alloc::Global;
use std::io::Write;

/// Does what a line asks for, and writes the reply. Keys are equal if their hashes and their bytes are, and are sorted by
/// their bytes. Memory is refused only to a new key, to a sort of keys that do not ascend, and to a reservation of more
/// than there is room for; then nothing is written. `reserve` and `slim` leave the room and the hash index that the map's
/// calls leave.
pub fn answer<W: Write>(
    alloc: Global,
    map: &mut SmallMap<String, i64>,
    writer: &mut W,
    line: Line<'_>,
) -> Result<(), PlayFault>
    ensures done { OnOk result (entries_of map.new.entries ≡ after (entries_of map.old.entries) (shown line.entry)) }
    ensures replied { OnOk result (Appends (W.contents writer.old) (W.contents writer.new) (reply (entries_of map.old.entries) (shown line.entry))) }
    ensures room { OnOk result (LeavesMemory map.old map.new (shown line.entry)) }
    ensures memory { result ≡ Err PlayFault.Memory → Keeps (W.contents writer.old) (W.contents writer.new) }
    ensures needed { result ≡ Err PlayFault.Memory → MayNeedMemory (entries_of map.old.entries) (shown line.entry) }
    ensures lacking { result ≡ Err PlayFault.Memory → LacksRoom map.old (shown line.entry) }
    ensures good { (n : ℕ) → result ≢ Err (PlayFault.BadLine n) }
{
    match line {
        Line::Put(key, value) => {
            let old = put(alloc, map, key, value)?;
            write_value(writer, old)
        }
        Line::Get(key) => write_value(writer, get(map, key)),
        Line::Del(key) => {
            let old = remove_key(map, key);
            write_value(writer, old)
        }
        Line::At(index) => write_at(writer, map, index),
        Line::Pop => write_popped(writer, map),
        Line::Rev => {
            turn(map);
            write_ok(writer)
        }
        Line::Sort => {
            sort(map)?;
            write_ok(writer)
        }
        Line::Clear => {
            clear(map);
            write_ok(writer)
        }
        Line::Reserve(additional) => {
            reserve(map, additional)?;
            write_ok(writer)
        }
        Line::Slim => {
            slim(map);
            write_ok(writer)
        }
        Line::Len => write_count(writer, map.len()),
        Line::Walk => write_entries(writer, map.iter_hashed()),
    }
}

// Sets the value under a key that is there, or inserts a copy of a new key.
fn put(
    alloc: Global,
    map: &mut SmallMap<String, i64>,
    key: Hashed<TextKey<'_>>,
    value: i64,
) -> Result<Option<i64>, PlayFault>
    ensures old { IfOk result (λ old. old ≡ value_at (entries_of map.old.entries) (match_of bytes_eq (entries_of map.old.entries) (shown_key key.entry))) }
    ensures entries { OnOk result (entries_of map.new.entries ≡ insert_entry bytes_eq (entries_of map.old.entries) (shown_key key.entry) value) }
    ensures err { IfErr result (λ fault. fault ≡ PlayFault.Memory) }
    ensures needed { OnErr result (match_of bytes_eq (entries_of map.old.entries) (shown_key key.entry) ≡ None) }
{
    if let Some(there) = map.get_mut_hashed(key.as_ref()) {
        let old = *there;
        *there = value;
        return Ok(Some(old));
    }
    insert_copy(alloc, map, key, value)?;
    Ok(None)
}

// Appends a copy of a key that is new.
fn insert_copy(
    alloc: Global,
    map: &mut SmallMap<String, i64>,
    key: Hashed<TextKey<'_>>,
    value: i64,
) -> Result<(), PlayFault>
    requires { match_of bytes_eq (entries_of map.old.entries) (shown_key key) ≡ None }
    ensures entries { OnOk result (entries_of map.new.entries ≡ insert_entry bytes_eq (entries_of map.old.entries) (shown_key key.entry) value) }
    ensures err { IfErr result (λ fault. fault ≡ PlayFault.Memory) }
{
    let Ok(text) = String::from_str(alloc, key.key().0) else {
        return Err(PlayFault::Memory);
    };
    match map.push(Hashed::new_unchecked(key.hash(), text), value) {
        Ok(_) => Ok(()),
        Err(_) => Err(PlayFault::Memory),
    }
}

fn get(map: &SmallMap<String, i64>, key: Hashed<TextKey<'_>>) -> Option<i64>
    ensures { result ≡ value_at (entries_of map.now.entries) (match_of bytes_eq (entries_of map.now.entries) (shown_key key.entry)) }
{
    map.get_hashed(key.as_ref()).copied()
}

// Removes an entry, and returns its value.
fn remove_key(map: &mut SmallMap<String, i64>, key: Hashed<TextKey<'_>>) -> Option<i64>
    ensures old { result ≡ value_at (entries_of map.old.entries) (match_of bytes_eq (entries_of map.old.entries) (shown_key key.entry)) }
    ensures entries { entries_of map.new.entries ≡ without (entries_of map.old.entries) (match_of bytes_eq (entries_of map.old.entries) (shown_key key.entry)) }
{
    let (_key, value) = map.shift_remove_hashed_entry(key.as_ref())?;
    Some(value)
}

// Reverses the order of the entries.
#[tactic(auto, using(crate::proofs::EntriesLemmas::reversed))]
fn turn(map: &mut SmallMap<String, i64>)
    ensures { entries_of map.new.entries ≡ reverse (entries_of map.old.entries) }
{
    map.reverse();
}

#[tactic(auto, using(crate::proofs::EntriesLemmas::sorted, crate::proofs::EntriesLemmas::ascends))]
fn sort(map: &mut SmallMap<String, i64>) -> Result<(), PlayFault>
    ensures entries { OnOk result (entries_of map.new.entries ≡ sorted_by_key bytes_cmp (entries_of map.old.entries)) }
    ensures err { IfErr result (λ fault. fault ≡ PlayFault.Memory) }
    ensures needed { OnErr result (¬ (Ascends bytes_cmp (entries_of map.old.entries))) }
{
    match map.sort_keys() {
        Ok(()) => Ok(()),
        Err(_) => Err(PlayFault::Memory),
    }
}

fn clear(map: &mut SmallMap<String, i64>)
    ensures { entries_of map.new.entries ≡ [] }
{
    map.clear();
}

// Makes room for `additional` new entries.
fn reserve(map: &mut SmallMap<String, i64>, additional: usize) -> Result<(), PlayFault>
    ensures entries { entries_of map.new.entries ≡ entries_of map.old.entries }
    ensures room { OnOk result (additional ≤ map.new.room) }
    ensures err { IfErr result (λ fault. fault ≡ PlayFault.Memory) }
    ensures needed { OnErr result (map.old.room < additional) }
{
    if map.reserve(additional).is_err() {
        Err(PlayFault::Memory)
    } else {
        Ok(())
    }
}

// Drops the hash index if the map is short enough to do without.
fn slim(map: &mut SmallMap<String, i64>)
    ensures entries { entries_of map.new.entries ≡ entries_of map.old.entries }
    ensures indexed { map.new.indexed ≡ (if nat_le (length map.old.entries) unindexed then false else map.old.indexed) }
{
    map.maybe_drop_index();
}

// Writes the key and the value at an index.
fn write_at<W: Write>(
    writer: &mut W,
    map: &SmallMap<String, i64>,
    index: usize,
) -> Result<(), PlayFault>
    ensures ok { OnOk result (Appends (W.contents writer.old) (W.contents writer.new) (pair_text (option_map pair_of (slice_get (entries_of map.now.entries) index)))) }
    ensures err { IfErr result (λ fault. fault ≡ PlayFault.Io) }
{
    match map.get_index(index) {
        None => write_text(writer, "none\n"),
        Some((key, value)) => write_pair(writer, key.as_str(), *value),
    }
}

// Removes the last entry, and writes it.
fn write_popped<W: Write>(writer: &mut W, map: &mut SmallMap<String, i64>) -> Result<(), PlayFault>
    ensures ok { OnOk result (Appends (W.contents writer.old) (W.contents writer.new) (pair_text (option_map pair_of (slice_get (entries_of map.old.entries) (length (entries_of map.old.entries) - 1))))) }
    ensures entries { entries_of map.new.entries ≡ remove (entries_of map.old.entries) (length (entries_of map.old.entries) - 1) }
    ensures err { IfErr result (λ fault. fault ≡ PlayFault.Io) }
{
    match map.pop() {
        None => write_text(writer, "none\n"),
        Some((key, value)) => write_pair(writer, key.as_str(), value),
    }
}

fn write_pair<W: Write>(writer: &mut W, key: &str, value: i64) -> Result<(), PlayFault>
    ensures ok { OnOk result (Appends (W.contents writer.old) (W.contents writer.new) (pair_text (Some (key.now, value)))) }
    ensures err { IfErr result (λ fault. fault ≡ PlayFault.Io) }
{
    write_line(writer, format_args!("some {key} {value}"))
}

fn write_count<W: Write>(writer: &mut W, n: usize) -> Result<(), PlayFault>
    ensures ok { OnOk result (Appends (W.contents writer.old) (W.contents writer.new) (ended (decimal n))) }
    ensures err { IfErr result (λ fault. fault ≡ PlayFault.Io) }
{
    let mut digits = Buffer::new();
    write_text(writer, digits.format(n))?;
    write_text(writer, "\n")
}

fn write_ok<W: Write>(writer: &mut W) -> Result<(), PlayFault>
    ensures ok { OnOk result (Appends (W.contents writer.old) (W.contents writer.new) (ended (codes "ok"))) }
    ensures err { IfErr result (λ fault. fault ≡ PlayFault.Io) }
{
    write_text(writer, "ok\n")
}

fn write_value<W: Write>(writer: &mut W, value: Option<i64>) -> Result<(), PlayFault>
    ensures ok { OnOk result (Appends (W.contents writer.old) (W.contents writer.new) (value_text value)) }
    ensures err { IfErr result (λ fault. fault ≡ PlayFault.Io) }
{
    match value {
        None => write_text(writer, "none\n"),
        Some(value) => write_line(writer, format_args!("some {value}")),
    }
}

fn write_entries<W: Write>(
    writer: &mut W,
    entries: IterHashed<'_, String, i64>,
) -> Result<(), PlayFault>
    ensures ok { OnOk result (Appends (W.contents writer.old) (W.contents writer.new) (flat_map entry_text (entries_of entries.entry))) }
    ensures err { IfErr result (λ fault. fault ≡ PlayFault.Io) }
{
    for (key, value) in entries {
        let hash = key.hash().get();
        let key = key.into_key();
        write_line(writer, format_args!("{hash} {key} {value}"))?;
    }
    Ok(())
}
