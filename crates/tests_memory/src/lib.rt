//! Tests of calls that ask for memory, where no command of the player makes them. Each holds whichever request is refused, so
//! that each can be refused in turn. What stands after a refusal is said by clauses.
#![tactic(auto)]

#[cfg(test)]
mod dicts;
#[cfg(test)]
mod given;
#[cfg(test)]
mod keys;
#[cfg(test)]
mod lists;
#[cfg(test)]
mod maps;
#[cfg(test)]
mod runs;
#[cfg(test)]
mod scripts;
#[cfg(test)]
mod tables;
#[cfg(test)]
mod uses;
