//! The names of operations.

ghost use Rattle.std.specs.Prelude.{◌≡◌, ◌++◌, [], IfOk, OnErr, string_bytes};
ghost use Rattle.rmgr_desc.specs.Operations.{heap2_inits, heap_inits, init_mark, inits, is_unnamed, name_of, numbered_name, operation_name_of};

use crate::names::listed_name;
use crate::pieces::or_emptied;
use record_layouts::{Heap2Op, HeapOp, Operation};
use std::alloc::{AllocError, Global};
use wal_base::{HexByte, OutOfMemory, Text};

/// The name of the operation of a record with this manager and this `info` (docs/RECORDS.md), as
/// `INSERT+INIT`; `INFO_` and two digits where the manager's operations have no names here, and
/// `UNKNOWN (..)` with the number in hexadecimal where it has none of this number. Answers
/// `OutOfMemory` only for want of memory.
pub fn operation_name(alloc: Global, manager: u8, info: u8) -> Result<Text, OutOfMemory>
    ensures { IfOk result (λ text. text ≡ operation_name_of manager info) }
{
    let mut text = String::new(alloc);
    add_operation_name(&mut text, manager, info)?;
    Ok(Text::from(text))
}

/// Adds what `operation_name` gives to a text. Answers `OutOfMemory` only for want of memory, and
/// then the text is empty.
#[tactic(auto, unfolding(crate::specs::Operations::operation_name_of))]
pub fn add_operation_name(text: &mut String, manager: u8, info: u8) -> Result<(), OutOfMemory>
    ensures ok { IfOk result (λ _. string_bytes text.new
        ≡ string_bytes text.old ++ operation_name_of manager info) }
    ensures err { OnErr result (string_bytes text.new ≡ []) }
{
    let added = add_name(text, Operation::of(manager, info));
    or_emptied(text, added)
}

/// Whether the manager's operations have no names here.
fn is_unnamed(manager: u8) -> bool
    ensures { result ≡ is_unnamed manager }
{
    manager >= 12 && manager <= 14 || manager >= 16 && manager <= 21 || manager >= 128
}

/// Whether an operation of Heap makes its page anew first.
fn heap_inits(op: HeapOp) -> bool
    ensures { result ≡ heap_inits op }
{
    match op {
        HeapOp::Insert { init } | HeapOp::Update { init } | HeapOp::HotUpdate { init } => init,
        HeapOp::Delete | HeapOp::Truncate | HeapOp::HeapConfirm => false,
        HeapOp::Lock | HeapOp::Inplace => false,
    }
}

/// Whether an operation of Heap2 makes its page anew first.
fn heap2_inits(op: Heap2Op) -> bool
    ensures { result ≡ heap2_inits op }
{
    match op {
        Heap2Op::MultiInsert { init } => init,
        _ => false,
    }
}

/// Whether an operation makes its page anew first.
fn inits(operation: Operation) -> bool
    ensures { result ≡ inits operation }
{
    match operation {
        Operation::Heap(op) => heap_inits(op),
        Operation::Heap2(op) => heap2_inits(op),
        _ => false,
    }
}

/// What stands behind the name of an operation.
fn init_mark(operation: Operation) -> &'static str
    ensures { result.now ≡ init_mark operation }
{
    if inits(operation) { "+INIT" } else { "" }
}

/// Adds what shows of an operation in no row.
fn add_number(text: &mut String, operation: Operation) -> Result<(), AllocError>
    ensures { IfOk result (λ _. string_bytes text.new
        ≡ string_bytes text.old ++ numbered_name operation) }
{
    let number = operation.number();
    if is_unnamed(operation.manager()) {
        let digits = HexByte(number);
        write!(text, "INFO_{digits}")
    } else {
        write!(text, "UNKNOWN ({number:x})")
    }
}

/// Adds the name of an operation.
#[tactic(auto, unfolding(crate::specs::Operations::name_of))]
fn add_name(text: &mut String, operation: Operation) -> Result<(), AllocError>
    ensures { IfOk result (λ _. string_bytes text.new
        ≡ string_bytes text.old ++ name_of operation) }
{
    match listed_name(operation) {
        Some(name) => {
            let mark = init_mark(operation);
            write!(text, "{name}{mark}")
        }
        None => add_number(text, operation),
    }
}
