//! Tests of what neither a clause nor a case of the player shows, by public calls.
#![tactic(auto)]

#[cfg(test)]
mod adaptors;
#[cfg(test)]
mod debug;
#[cfg(test)]
mod given;
#[cfg(test)]
mod hashes;
#[cfg(test)]
mod other_calls;
#[cfg(test)]
mod rooms;
#[cfg(test)]
mod small_maps;
#[cfg(test)]
mod tables;
#[cfg(test)]
mod walks_of_maps;
#[cfg(test)]
mod walks_of_sets;
#[cfg(test)]
mod walks_of_tables;
#[cfg(test)]
mod written_out;
