//! Counts names, in the order in which they first come.
#![tactic(auto)]

use starlark_map::Hashed;
use starlark_map::small_map::SmallMap;
use std::io;

fn main(rt: HostRuntime) -> io::Result<()> {
    let alloc = rt.alloc();
    let mut counts: SmallMap<String, u32> = SmallMap::new(alloc);
    for name in ["print", "len", "print"] {
        match counts.get_mut(name) {
            Some(count) => *count = count.saturating_add(1),
            None => {
                counts.insert(String::from_str(alloc, name)?, 1)?;
            }
        }
    }
    for (name, count) in &counts {
        println!(rt; "{name}: {count}")?;
    }
    let print = Hashed::new("print"); // its hash is computed here, and in no look-up below
    println!(rt; "{:?}", counts.get_hashed(print))?;
    Ok(())
}
