//! What is written as a script is played.

use play_words::Out;
use std::alloc::{AllocError, Global};

// How many bytes an answer may have without a request for memory.
const ROOM: usize = 65_536;

/// What is written as a script is played.
#[derive(Drop)]
pub struct Pages {
    /// The answer to a line.
    pub out: Out,
    /// What the collection held before the line.
    pub before: Out,
    /// Whether a call that is refused is played once more, if it left its collection as it was.
    pub watches: bool,
}

impl Pages {
    /// Empty ones.
    pub fn new(alloc: Global) -> Result<Pages, AllocError> {
        Ok(Pages {
            out: Out::new(alloc, ROOM)?,
            before: Out::new(alloc, ROOM)?,
            watches: false,
        })
    }
}
