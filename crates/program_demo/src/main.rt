//! Plays a few lines on the scopes of an interpreter, whose values may be dictionaries. A line shows what it did, and a
//! scope what it binds when it is left.
#![tactic(auto)]

use starlark_dict::Dict;
use starlark_uses::scopes::Scopes;
use starlark_uses::value::Value;
use std::alloc::{AllocError, Global};
use std::io;

// A line of a script.
#[derive(Clone, Copy)]
enum Line {
    Assign(&'static str, i64),
    NewDict(&'static str),
    SetKey(&'static str, &'static str, i64),
    DeleteKey(&'static str, &'static str),
    Delete(&'static str),
    Show(&'static str),
    Enter,
    Leave,
}

use Line::{Assign, Delete, DeleteKey, Enter, Leave, NewDict, SetKey, Show};

fn main(rt: HostRuntime) -> io::Result<()> {
    let mut scopes = Scopes::new(rt.alloc());
    for line in [
        Assign("width", 80),
        NewDict("sizes"),
        SetKey("sizes", "small", 1),
        SetKey("sizes", "large", 9),
        Enter,
        Assign("width", 40),
        SetKey("sizes", "small", 2),
        DeleteKey("sizes", "large"),
        Show("sizes"),
        Show("width"),
        SetKey("width", "small", 3),
        Delete("width"),
        Show("width"),
        Leave,
        Show("sizes"),
        Show("depth"),
        DeleteKey("sizes", "small"),
        DeleteKey("sizes", "huge"),
        Leave,
    ] {
        play(&rt, &mut scopes, line)?;
    }
    Ok(())
}

// Plays a line, and shows what it did.
fn play(rt: &HostRuntime, scopes: &mut Scopes<Value>, line: Line) -> io::Result<()> {
    match line {
        Assign(name, number) => {
            assign(rt.alloc(), scopes, name, Value::Int(number))?;
            println!(rt; "{name} = {number}")
        }
        NewDict(name) => {
            assign(rt.alloc(), scopes, name, Value::Dict(Dict::new(rt.alloc())))?;
            println!(rt; "{name} = {{}}")
        }
        SetKey(name, key, number) => {
            if set_key(rt.alloc(), scopes, name, key, number)? {
                println!(rt; "{name}[{key:?}] = {number}")
            } else {
                println!(rt; "{name} is no dictionary")
            }
        }
        DeleteKey(name, key) => {
            let was = delete_key(rt.alloc(), scopes, name, key)?;
            println!(rt; "del {name}[{key:?}], which was {was:?}")
        }
        Delete(name) => println!(rt; "del {name}, which was {:?}", scopes.delete(name)),
        Show(name) => println!(rt; "{name} is {:?}", scopes.get(name)),
        Enter => {
            scopes.enter()?;
            println!(rt; "enter")
        }
        Leave => {
            println!(rt; "leave a scope of")?;
            walk(rt, scopes)?;
            scopes.leave();
            Ok(())
        }
    }
}

fn assign(
    alloc: Global,
    scopes: &mut Scopes<Value>,
    name: &str,
    value: Value,
) -> Result<(), AllocError> {
    scopes.assign(String::from_str(alloc, name)?, value)?;
    Ok(())
}

// Sets a key of the dictionary that a name is bound to, in a copy that the innermost scope binds then, and says whether
// there is a dictionary.
fn set_key(
    alloc: Global,
    scopes: &mut Scopes<Value>,
    name: &str,
    key: &str,
    number: i64,
) -> Result<bool, AllocError> {
    let Some(bound) = scopes.get(name) else {
        return Ok(false);
    };
    let mut value = bound.copy(alloc)?;
    if !value.set_key(String::from_str(alloc, key)?, Value::Int(number))? {
        return Ok(false);
    }
    assign(alloc, scopes, name, value)?;
    Ok(true)
}

// Deletes a key of the dictionary that a name is bound to, in such a copy too, and answers its value.
fn delete_key(
    alloc: Global,
    scopes: &mut Scopes<Value>,
    name: &str,
    key: &str,
) -> Result<Option<Value>, AllocError> {
    let Some(bound) = scopes.get(name) else {
        return Ok(None);
    };
    let mut value = bound.copy(alloc)?;
    let was = value.delete_key(key);
    if was.is_some() {
        assign(alloc, scopes, name, value)?;
    }
    Ok(was)
}

// Shows what the innermost scope binds, in the order of the first assignments.
fn walk(rt: &HostRuntime, scopes: &Scopes<Value>) -> io::Result<()> {
    for (name, value) in scopes.innermost() {
        println!(rt; "  {name}: {value:?}")?;
    }
    Ok(())
}
