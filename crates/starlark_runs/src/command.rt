//! The commands of a run on a map, and their replies.

use starlark_hash::Hashed;

/// A command of a run.
#[derive(Debug, Drop)]
pub enum Command<K, V> {
    /// Looks up a hash and key. The reply is `Found`.
    Look(Hashed<K>),
    /// Asks for the entry at an index. The reply is `Shown`.
    At(usize),
    /// Asks for the first entry. The reply is `Shown`.
    First,
    /// Asks for the last entry. The reply is `Shown`.
    Last,
    /// Asks for the length. The reply is `Count`.
    Len,
    /// Inserts by `SmallMap::insert_hashed`. The reply is `Old`, or `Refused` for a new key for which no memory was found.
    Insert(Hashed<K>, V),
    /// Replaces the value of the entry under this hash and key. If there is none, the value is dropped. The reply is `Old`.
    Change(Hashed<K>, V),
    /// Removes the entry under this hash and key. The reply is `Taken`.
    Remove(Hashed<K>),
    /// Removes the entry at an index. The reply is `TakenHashed`.
    RemoveAt(usize),
    /// Removes the last entry. The reply is `Taken`.
    Pop,
    /// Removes each entry. The reply is `Done`.
    Clear,
    /// Reverses the order of the entries. The reply is `Done`.
    Reverse,
    /// Makes room by `SmallMap::reserve`. The reply is `Done`, or `NoMemory`.
    Reserve(usize),
    /// Drops the hash index by `SmallMap::maybe_drop_index`. The reply is `Done`.
    DropIndex,
    /// Sorts by key by `SmallMap::sort_keys`. The reply is `Done`, or `NoMemory` if the keys do not ascend already.
    Sort,
}

/// The reply to a command.
#[derive(Debug, Drop)]
pub enum Reply<K, V, R> {
    /// The index of the entry, and what `look` shows of it, if there is one.
    Found(Option<(usize, R)>),
    /// What `look` shows of the entry, if there is one.
    Shown(Option<R>),
    /// The number of entries.
    Count(usize),
    /// The value that was stored under the hash and key before, if there was one.
    Old(Option<V>),
    /// No memory was found for the new key. Key and value come back, and the list is unchanged.
    Refused(Hashed<K>, V),
    /// The key and the value that were removed, if there were any.
    Taken(Option<(K, V)>),
    /// The entry that was removed, if there was one.
    TakenHashed(Option<(Hashed<K>, V)>),
    /// The command is done.
    Done,
    /// No memory was found, to sort or to make room. The list is unchanged.
    NoMemory,
}
