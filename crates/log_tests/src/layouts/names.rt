//! Names of managers and operations, and operations by their numbers.
use crate::texts::{byte, cut_at};
use crate::told::Told;
use record_layouts::Operation;
use rmgr_desc::{
    add_manager_name, add_operation_name, manager_name, manager_named, operation_name,
};
use std::process::Abort;

/// Whether an operation's name is added to that of its manager as a row says.
fn is_added<R: AllocGlobal + Abort>(rt: &R, manager: u8, info: u8, meant: &str) -> bool {
    let mut text = String::new(rt.alloc());
    add_manager_name(&mut text, manager).expect(rt, "no memory");
    text.push(' ').expect(rt, "no memory");
    add_operation_name(&mut text, manager, info).expect(rt, "no memory");
    text.as_str() == meant
}

/// Whether an operation has a name, which is also added behind what is there.
fn operation<R: AllocGlobal + Abort>(rt: &R, manager: u8, info: u8, meant: &str) -> bool {
    let name = operation_name(rt.alloc(), manager, info).expect(rt, "no memory");
    meant.ends_with(name.as_str()) && is_added(rt, manager, info, meant)
}

/// Whether a manager has the name that a row says.
fn manager<R: AllocGlobal + Abort>(rt: &R, manager: u8, meant: &str) -> bool {
    let name = manager_name(rt.alloc(), manager).expect(rt, "no memory");
    name.as_str() == meant
}

/// How many zeros hold an operation's layout at least.
fn least(operation: Operation) -> usize {
    let zeros = [0; 88];
    for size in 0..88 {
        if operation.is_whole(&zeros[..size]) {
            return size;
        }
    }
    88
}

/// Whether an operation is what a row says, and so many zeros hold its layout at least.
fn does(manager: u8, info: u8, meant: &str) -> bool {
    let operation = Operation::of(manager, info);
    let mut told = Told::new(meant);
    told.shows("", &operation);
    told.shows(" ", &operation.manager());
    told.shows(" ", &operation.number());
    told.shows(" from ", &least(operation));
    told.text(" on");
    told.is_all()
}

/// Whether the manager of a name is the one that a row says.
fn named(name: &str, meant: &str) -> bool {
    let mut told = Told::new(meant);
    told.shows("", &manager_named(name));
    told.is_all()
}

/// Whether a line of a verb is as a row says: `manager N`, `operation MANAGER INFO`, `does MANAGER INFO`, `named NAME`.
pub fn name<R: AllocGlobal + Abort>(rt: &R, verb: &str, behind: &str, meant: &str) -> bool {
    let (first, info) = cut_at(behind, " ");
    match verb {
        "manager" => manager(rt, byte(rt, behind), meant),
        "operation" => operation(rt, byte(rt, first), byte(rt, info), meant),
        "does" => does(byte(rt, first), byte(rt, info), meant),
        "named" => named(behind, meant),
        _ => panic!(rt; "no such line"),
    }
}
