//! How keys, values and what the calls answer are written in a line.

use starlark_map::Hashed;
use std::alloc::{AllocError, Global};
use std::cmp::Ordering;
use std::fmt::Write;

/// What can be written as a word of an answer.
pub trait Shown {
    /// Writes the word at the end of the text.
    fn show(&self, text: &mut String) -> Result<(), AllocError>;

    /// Adds 1 to each value that is lent to be written.
    fn raise(&mut self) {}
}

/// The word that an item is written as.
pub fn text_of<S: Shown>(item: &S, alloc: Global) -> Result<String, AllocError> {
    let mut text = String::new(alloc);
    item.show(&mut text)?;
    Ok(text)
}

impl Shown for bool {
    fn show(&self, text: &mut String) -> Result<(), AllocError> {
        text.push_str(if *self { "true" } else { "false" })
    }
}

impl Shown for u32 {
    fn show(&self, text: &mut String) -> Result<(), AllocError> {
        write!(text, "{self}")
    }
}

impl Shown for u64 {
    fn show(&self, text: &mut String) -> Result<(), AllocError> {
        write!(text, "{self}")
    }
}

impl Shown for usize {
    fn show(&self, text: &mut String) -> Result<(), AllocError> {
        write!(text, "{self}")
    }
}

impl Shown for i64 {
    fn show(&self, text: &mut String) -> Result<(), AllocError> {
        write!(text, "{self}")
    }
}

impl Shown for Ordering {
    fn show(&self, text: &mut String) -> Result<(), AllocError> {
        text.push_str(match self {
            Ordering::Less => "less",
            Ordering::Equal => "equal",
            Ordering::Greater => "greater",
        })
    }
}

/// A text as it stands; the empty one as `_`.
impl Shown for String {
    fn show(&self, text: &mut String) -> Result<(), AllocError> {
        text.push_str(if self.is_empty() { "_" } else { self.as_str() })
    }
}

impl<T: Shown> Shown for &T {
    fn show(&self, text: &mut String) -> Result<(), AllocError> {
        (**self).show(text)
    }
}

impl Shown for &mut i64 {
    fn show(&self, text: &mut String) -> Result<(), AllocError> {
        (**self).show(text)
    }

    fn raise(&mut self) {
        **self = self.wrapping_add(1);
    }
}

impl<T: Shown> Shown for Option<T> {
    fn show(&self, text: &mut String) -> Result<(), AllocError> {
        match self {
            None => text.push_str("none"),
            Some(item) => item.show(text),
        }
    }
}

/// HASH:KEY.
impl<K: Shown> Shown for Hashed<K> {
    fn show(&self, text: &mut String) -> Result<(), AllocError> {
        self.hash().get().show(text)?;
        text.push(':')?;
        self.key().show(text)
    }
}

/// KEY=VALUE.
impl<K: Shown, V: Shown> Shown for (K, V) {
    fn show(&self, text: &mut String) -> Result<(), AllocError> {
        self.0.show(text)?;
        text.push('=')?;
        self.1.show(text)
    }

    fn raise(&mut self) {
        self.1.raise();
    }
}
