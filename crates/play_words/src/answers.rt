//! The answer to a command, word by word.

use crate::fault::Fault;
use crate::shown::Shown;
use std::alloc::{AllocError, Global};
use std::fmt::{Debug, Write};

/// The answer to a command: words with a space between each two.
#[derive(Drop)]
pub struct Out {
    line: String,
    begun: bool,
}

impl Out {
    /// An answer without words, with room for this many bytes: up to that length no word needs memory.
    pub fn new(alloc: Global, room: usize) -> Result<Out, AllocError> {
        Ok(Out {
            line: String::with_capacity(alloc, room)?,
            begun: false,
        })
    }

    /// The words so far.
    pub fn line(&self) -> &str {
        self.line.as_str()
    }

    /// Takes the words back.
    pub fn clear(&mut self) {
        self.line.clear();
        self.begun = false;
    }

    fn space(&mut self) -> Result<(), Fault> {
        if self.begun {
            self.line.push(' ')?;
        }
        self.begun = true;
        Ok(())
    }

    /// A word of the program's own.
    pub fn say(&mut self, word: &str) -> Result<(), Fault> {
        self.space()?;
        self.line.push_str(word)?;
        Ok(())
    }

    /// What a call answered; `none` for `None`.
    pub fn put<S: Shown + Drop>(&mut self, answer: S) -> Result<(), Fault> {
        self.space()?;
        answer.show(&mut self.line)?;
        Ok(())
    }

    /// The text of a value by `Debug`.
    pub fn debug<D: Debug>(&mut self, value: &D) -> Result<(), Fault> {
        self.space()?;
        write!(self.line, "{value:?}")?;
        Ok(())
    }

    /// A walk's size hint, as `LEAST..MOST`.
    pub fn hint(&mut self, hint: (usize, Option<usize>)) -> Result<(), Fault> {
        self.space()?;
        hint.0.show(&mut self.line)?;
        self.line.push_str("..")?;
        if let Some(most) = hint.1 {
            most.show(&mut self.line)?;
        }
        Ok(())
    }

    /// How many items a walk has left, as `/COUNT`.
    pub fn left(&mut self, count: usize) -> Result<(), Fault> {
        self.space()?;
        self.line.push('/')?;
        count.show(&mut self.line)?;
        Ok(())
    }

    /// The item of a walk, after 1 was added to a value that it lends.
    pub fn item<S: Shown + Drop>(&mut self, item: Option<S>) -> Result<(), Fault> {
        match item {
            None => self.say("none"),
            Some(mut item) => {
                item.raise();
                self.put(item)
            }
        }
    }

    /// The items of a walk, as `(ITEM,ITEM)`.
    pub fn list<I: ExactSizeIterator>(&mut self, walk: I) -> Result<(), Fault>
    where
        I::Item: Shown + Drop,
        requires { I.can_next walk }
    {
        self.space()?;
        self.line.push('(')?;
        let _ = walk.len();
        let mut first = true;
        for item in walk {
            if !first {
                self.line.push(',')?;
            }
            first = false;
            item.show(&mut self.line)?;
        }
        self.line.push(')')?;
        Ok(())
    }
}
