//! Texts of the manager CLOG.

ghost use Rattle.std.specs.Prelude.{◌≡◌, ◌++◌, IfOk, string_bytes};
ghost use Rattle.record_layouts.specs.Clog.{clog_truncate_of, clog_zero_page_of};
ghost use Rattle.rmgr_desc.specs.Clog.{clog_cut_text, clog_page_text, clog_text};
ghost use Rattle.rmgr_desc.specs.Pieces.{or_short};

use crate::pieces::add_short;
use record_layouts::{ClogOp, ClogTruncate, ClogZeroPage};
use std::alloc::AllocError;

/// Adds the text of an operation with these main bytes.
pub fn add_clog(text: &mut String, op: ClogOp, main: &[u8]) -> Result<(), AllocError>
    ensures { IfOk result (λ _. string_bytes text.new
        ≡ string_bytes text.old ++ clog_text op main.now) }
{
    match op {
        ClogOp::ZeroPage => add_zero_page(text, main),
        ClogOp::Truncate => add_cut(text, main),
        ClogOp::Unlisted(_) => Ok(()),
    }
}

fn add_zero_page(text: &mut String, main: &[u8]) -> Result<(), AllocError>
    ensures { IfOk result (λ _. string_bytes text.new
        ≡ string_bytes text.old ++ or_short clog_page_text (clog_zero_page_of main.now)) }
{
    let Some(zeroed) = ClogZeroPage::read(main) else {
        return add_short(text);
    };
    let page = zeroed.page;
    write!(text, "page {page}")
}

fn add_cut(text: &mut String, main: &[u8]) -> Result<(), AllocError>
    ensures { IfOk result (λ _. string_bytes text.new
        ≡ string_bytes text.old ++ or_short clog_cut_text (clog_truncate_of main.now)) }
{
    let Some(cut) = ClogTruncate::read(main) else {
        return add_short(text);
    };
    let page = cut.page;
    let xid = cut.oldest_xid;
    write!(text, "page {page}; oldest xid {xid}")
}
