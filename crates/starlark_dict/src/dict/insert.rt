//! `insert`.
ghost use Rattle.std.specs.Prelude.{◌≡◌, ◌+◌, ◌<◌, is_some, if◌then◌else◌, IsOk, IfOk, IfErr, OnOk, OnErr, None, Some};
ghost use Rattle.starlark_dict.specs.Dict.{dict_len, room, get, insert_entry, IsUnchanged, IsUnique, KeepsRoom, LeavesMemory, Updates};

use super::Dict;
use starlark_hash::NoRoom;
use std::hash::Hash;

impl<K: Eq + Hash + Drop, V> Dict<K, V> {
    /// Inserts a pair. A key that is there keeps its place, and the old value is returned. A new key is appended.
    #[inline(always)]
    pub fn insert(&mut self, key: K, value: V) -> Result<Option<V>, NoRoom<(K, V)>>
        // On success `key` has `value`, its old value is returned, and other keys keep theirs.
        ensures old { IfOk result (λ old. old ≡ get K.eq self.old key) }
        ensures updates { OnOk result (Updates K.eq self.old self.new key (Some value)) }
        ensures entries { OnOk result (self.new.entries ≡ insert_entry K.eq self.old.entries key value) }
        ensures len { IfOk result (λ old. dict_len self.new ≡ dict_len self.old + (if is_some old then 0 else 1)) }

        // On failure the pair comes back and the entries stay. Only a new key can fail.
        ensures handed_back { IfErr result (λ refused. refused.0 ≡ (key, value)) }
        ensures err { OnErr result (IsUnchanged self.old self.new) }
        ensures absent { OnErr result (get K.eq self.old key ≡ None) }

        // Its memory. With room to spare it succeeds. No room is lost.
        ensures succeeds { 0 < room self.old → IsOk result }
        ensures room { KeepsRoom self.old self.new }
        ensures memory { LeavesMemory self.old self.new }
        ensures unique { IsUnique K.eq self.new }
    {
        let old = self.map.insert(key, value);
        prove!(self.map.iter_hashed().len() == self.map.len());
        old
    }
}
