//! Tests of what no contract says: bytes and drops, comparisons of keys, items without size, streams that fail under a script.
#![tactic(auto)]

#[cfg(test)]
mod compared;
#[cfg(test)]
mod dropped;
#[cfg(test)]
mod fakes;
#[cfg(test)]
mod given;
#[cfg(test)]
mod large;
#[cfg(test)]
mod no_second_request;
#[cfg(test)]
mod one_request;
#[cfg(test)]
mod scripts;
#[cfg(test)]
mod searches;
#[cfg(test)]
mod sizes;
#[cfg(test)]
mod streams;
#[cfg(test)]
mod without_memory;
#[cfg(test)]
mod without_size;
