//! Texts of the manager Transaction.

ghost use Rattle.std.specs.Prelude.{◌≡◌, ◌++◌, IfOk, decimal, option_to_list, slice_get, string_bytes};
ghost use Rattle.block_refs.specs.Names.{rel_text};
ghost use Rattle.record_layouts.specs.End.{end_of};
ghost use Rattle.record_layouts.specs.Transaction.{assignment_of};
ghost use Rattle.rmgr_desc.specs.Pieces.{or_short};
ghost use Rattle.rmgr_desc.specs.Transaction.{assignment_text, end_text, listed, spaced, time_text, transaction_text};

use crate::pieces::add_short;
use block_refs::RelName;
use record_layouts::{Assignment, Items, Outcome, TransactionEnd, TransactionOp};
use std::alloc::AllocError;

/// Adds the text of an operation with these main bytes.
pub fn add_transaction(text: &mut String, op: TransactionOp, main: &[u8]) -> Result<(), AllocError>
    ensures { IfOk result (λ _. string_bytes text.new
        ≡ string_bytes text.old ++ transaction_text op main.now) }
{
    match op {
        TransactionOp::End {
            outcome,
            has_xinfo,
            ..
        } => add_end(text, outcome, has_xinfo, main),
        TransactionOp::Assignment => add_assignment(text, main),
        TransactionOp::Prepare | TransactionOp::Invalidation => Ok(()),
        TransactionOp::Unlisted(_) => Ok(()),
    }
}

/// Adds the number at a place with a space before it, if there is one.
fn add_number(text: &mut String, numbers: &Items<u32>, at: usize) -> Result<(), AllocError>
    ensures { IfOk result (λ _. string_bytes text.new
        ≡ string_bytes text.old ++ spaced decimal (option_to_list (slice_get numbers.now at))) }
{
    match numbers.get(at) {
        Some(number) => write!(text, " {number}"),
        None => Ok(()),
    }
}

/// Adds each number with a space before it.
#[tactic(auto, using(crate::proofs::ListLemmas::spaced_more))]
fn add_numbers(text: &mut String, numbers: &Items<u32>) -> Result<(), AllocError>
    ensures { IfOk result (λ _. string_bytes text.new
        ≡ string_bytes text.old ++ spaced decimal numbers.now) }
{
    for at in 0..numbers.len() {
        add_number(text, numbers, at)?;
    }
    Ok(())
}

/// Adds the relation at a place with a space before it, if there is one.
fn add_rel(text: &mut String, rels: &Items<RelName>, at: usize) -> Result<(), AllocError>
    ensures { IfOk result (λ _. string_bytes text.new
        ≡ string_bytes text.old ++ spaced rel_text (option_to_list (slice_get rels.now at))) }
{
    match rels.get(at) {
        Some(rel) => write!(text, " {rel}"),
        None => Ok(()),
    }
}

/// Adds each relation with a space before it.
#[tactic(auto, using(crate::proofs::ListLemmas::spaced_more))]
fn add_rels(text: &mut String, rels: &Items<RelName>) -> Result<(), AllocError>
    ensures { IfOk result (λ _. string_bytes text.new
        ≡ string_bytes text.old ++ spaced rel_text rels.now) }
{
    for at in 0..rels.len() {
        add_rel(text, rels, at)?;
    }
    Ok(())
}

/// Adds numbers under a title, where there are some.
#[tactic(auto, unfolding(crate::specs::Transaction::listed))]
fn add_listed_numbers(
    text: &mut String,
    title: &str,
    numbers: &Items<u32>,
) -> Result<(), AllocError>
    ensures { IfOk result (λ _. string_bytes text.new
        ≡ string_bytes text.old ++ listed title.now decimal numbers.now) }
{
    if numbers.len() == 0 {
        return Ok(());
    }
    text.push_str(title)?;
    add_numbers(text, numbers)
}

/// Adds relations under a title, where there are some.
#[tactic(auto, unfolding(crate::specs::Transaction::listed))]
fn add_listed_rels(text: &mut String, title: &str, rels: &Items<RelName>) -> Result<(), AllocError>
    ensures { IfOk result (λ _. string_bytes text.new
        ≡ string_bytes text.old ++ listed title.now rel_text rels.now) }
{
    if rels.len() == 0 {
        return Ok(());
    }
    text.push_str(title)?;
    add_rels(text, rels)
}

/// Adds when a transaction ended.
#[tactic(auto, unfolding(crate::specs::Transaction::time_text))]
fn add_time(text: &mut String, end: &TransactionEnd) -> Result<(), AllocError>
    ensures { IfOk result (λ _. string_bytes text.new
        ≡ string_bytes text.old ++ time_text end.now.time) }
{
    let time = end.time;
    write!(text, "time {time}")
}

/// Adds how and when a transaction ended.
fn add_end(
    text: &mut String,
    outcome: Outcome,
    has_xinfo: bool,
    main: &[u8],
) -> Result<(), AllocError>
    ensures { IfOk result (λ _. string_bytes text.new
        ≡ string_bytes text.old ++ or_short end_text (end_of outcome has_xinfo main.now)) }
{
    let Some(end) = TransactionEnd::read(outcome, has_xinfo, main) else {
        return add_short(text);
    };
    add_time(text, &end)?;
    add_listed_numbers(text, "; subxacts:", &end.subxacts)?;
    add_listed_rels(text, "; rels:", &end.dropped)
}

fn add_assignment(text: &mut String, main: &[u8]) -> Result<(), AllocError>
    ensures { IfOk result (λ _. string_bytes text.new
        ≡ string_bytes text.old ++ or_short assignment_text (assignment_of main.now)) }
{
    let Some(assignment) = Assignment::read(main) else {
        return add_short(text);
    };
    let top = assignment.top;
    write!(text, "xtop {top}")
}
