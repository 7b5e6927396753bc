//! The words of a line.

use crate::fault::{Fault, needed};
use crate::key::Key;
use crate::slots::Slot;
use starlark_map::{Hashed, StarlarkHashValue};
use std::alloc::Global;
use std::str::FromStr;

/// A command on a collection.
#[derive(Clone, Copy)]
pub struct Call<'a> {
    /// The type of the collection, in two letters.
    pub kind: &'a str,
    pub slot: Slot,
    /// What is called.
    pub op: &'a str,
    /// The words behind it.
    pub words: Words<'a>,
}

/// The words of a line that are not read yet. One space stands between each two, so words can be empty.
#[derive(Clone, Copy)]
pub struct Words<'a> {
    /// Where keys and lists of them get memory.
    pub alloc: Global,
    rest: Option<&'a str>,
}

impl<'a> Words<'a> {
    /// The words of a line.
    pub fn new(alloc: Global, line: &'a str) -> Words<'a> {
        Words {
            alloc,
            rest: Some(line),
        }
    }

    /// The next word, if there is one.
    pub fn maybe(&mut self) -> Option<&'a str> {
        let rest = self.rest?;
        match rest.split_once(' ') {
            Some((word, after)) => {
                self.rest = Some(after);
                Some(word)
            }
            None => {
                self.rest = None;
                Some(rest)
            }
        }
    }

    /// The next word.
    pub fn word(&mut self) -> Result<&'a str, Fault> {
        needed(self.maybe())
    }

    /// The words that are left, as they stand in the line.
    pub fn rest(self) -> &'a str {
        self.rest.unwrap_or("")
    }

    /// The call of a collection: KIND SLOT OP WORDS.
    pub fn call(mut self) -> Result<Call<'a>, Fault> {
        let kind = self.word()?;
        let slot = self.slot()?;
        let op = self.word()?;
        Ok(Call {
            kind,
            slot,
            op,
            words: self,
        })
    }

    /// One of the letters `a` to `d`.
    pub fn slot(&mut self) -> Result<Slot, Fault> {
        match self.word()? {
            "a" => Ok(Slot::A),
            "b" => Ok(Slot::B),
            "c" => Ok(Slot::C),
            "d" => Ok(Slot::D),
            _ => Err(Fault::BadLine),
        }
    }

    /// A number.
    pub fn number<N: FromStr>(&mut self) -> Result<N, Fault>
    where
        N::Err: Drop,
    {
        match self.word()?.parse::<N>() {
            Ok(number) => Ok(number),
            Err(_) => Err(Fault::BadLine),
        }
    }

    /// A count or a place.
    pub fn count(&mut self) -> Result<usize, Fault> {
        self.number()
    }

    /// A value, as maps hold them.
    pub fn value(&mut self) -> Result<i64, Fault> {
        self.number()
    }

    /// KEY.
    pub fn key<K: Key>(&mut self) -> Result<K, Fault> {
        K::read(self.alloc, self.word()?)
    }

    /// KEY VALUE.
    pub fn pair<K: Key>(&mut self) -> Result<(K, i64), Fault> {
        let key = self.key()?;
        Ok((key, self.value()?))
    }

    /// HASH KEY VALUE.
    pub fn hashed_pair<K: Key>(&mut self) -> Result<(Hashed<K>, i64), Fault> {
        let key = self.hashed()?;
        Ok((key, self.value()?))
    }

    /// HASH KEY, where the hash `-` is the key's own.
    pub fn hashed<K: Key>(&mut self) -> Result<Hashed<K>, Fault> {
        let hash = self.word()?;
        let key = self.key()?;
        if hash == "-" {
            return Ok(Hashed::new(key));
        }
        match hash.parse::<u32>() {
            Ok(hash) => Ok(Hashed::new_unchecked(StarlarkHashValue::new_unchecked(hash), key)),
            Err(_) => Err(Fault::BadLine),
        }
    }

    /// KEY..
    pub fn keys<K: Key>(mut self) -> Result<Vec<K>, Fault> {
        let mut keys = Vec::new(self.alloc);
        for _ in 0..self.left() {
            keys.push(self.key()?)?;
        }
        Ok(keys)
    }

    /// HASH KEY..
    pub fn all_hashed<K: Key>(mut self) -> Result<Vec<Hashed<K>>, Fault> {
        let mut keys = Vec::new(self.alloc);
        for _ in 0..self.left() {
            if self.rest.is_none() {
                break;
            }
            keys.push(self.hashed()?)?;
        }
        Ok(keys)
    }

    /// KEY VALUE..
    pub fn pairs<K: Key>(mut self) -> Result<Vec<(K, i64)>, Fault> {
        let mut pairs = Vec::new(self.alloc);
        for _ in 0..self.left() {
            if self.rest.is_none() {
                break;
            }
            pairs.push(self.pair()?)?;
        }
        Ok(pairs)
    }

    // How many words are left.
    fn left(&self) -> usize {
        match self.rest {
            None => 0,
            Some(rest) => rest.split(' ').count(),
        }
    }
}
