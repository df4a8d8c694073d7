//! Texts of the manager MultiXact.

ghost use Rattle.std.specs.Prelude.{◌≡◌, ◌++◌, IfOk, string_bytes};
ghost use Rattle.record_layouts.specs.MultiXact.{multixact_create_of, multixact_truncate_of, multixact_zero_page_of};
ghost use Rattle.rmgr_desc.specs.Clog.{multixact_cut_text, multixact_made_text, multixact_page_text, multixact_text};
ghost use Rattle.rmgr_desc.specs.Pieces.{or_short};

use crate::pieces::add_short;
use record_layouts::{MultiXactCreate, MultiXactOp, MultiXactTruncate, MultiXactZeroPage};
use std::alloc::AllocError;

/// Adds the text of an operation with these main bytes.
pub fn add_multixact(text: &mut String, op: MultiXactOp, main: &[u8]) -> Result<(), AllocError>
    ensures { IfOk result (λ _. string_bytes text.new
        ≡ string_bytes text.old ++ multixact_text op main.now) }
{
    match op {
        MultiXactOp::ZeroOffsetsPage | MultiXactOp::ZeroMembersPage => add_zero_page(text, main),
        MultiXactOp::CreateId => add_made(text, main),
        MultiXactOp::TruncateId => add_cut(text, main),
        MultiXactOp::Unlisted(_) => Ok(()),
    }
}

fn add_zero_page(text: &mut String, main: &[u8]) -> Result<(), AllocError>
    ensures { IfOk result (λ _. string_bytes text.new
        ≡ string_bytes text.old ++ or_short multixact_page_text (multixact_zero_page_of main.now)) }
{
    let Some(zeroed) = MultiXactZeroPage::read(main) else {
        return add_short(text);
    };
    let page = zeroed.page;
    write!(text, "page {page}")
}

fn add_made(text: &mut String, main: &[u8]) -> Result<(), AllocError>
    ensures { IfOk result (λ _. string_bytes text.new
        ≡ string_bytes text.old ++ or_short multixact_made_text (multixact_create_of main.now)) }
{
    let Some(made) = MultiXactCreate::read(main) else {
        return add_short(text);
    };
    let multi = made.multi;
    let offset = made.offset;
    let members = made.members.len();
    write!(text, "multi {multi} offset {offset} members {members}")
}

fn add_cut(text: &mut String, main: &[u8]) -> Result<(), AllocError>
    ensures { IfOk result (λ _. string_bytes text.new
        ≡ string_bytes text.old ++ or_short multixact_cut_text (multixact_truncate_of main.now)) }
{
    let Some(cut) = MultiXactTruncate::read(main) else {
        return add_short(text);
    };
    let multi = cut.first_multi;
    let end_multi = cut.end_multi;
    let offset = cut.first_offset;
    let end_offset = cut.end_offset;
    write!(
        text,
        "multi [{multi}, {end_multi}) offset [{offset}, {end_offset})"
    )
}
