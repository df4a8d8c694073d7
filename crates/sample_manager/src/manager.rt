//! The sample's manager.

ghost use Rattle.std.proofs.Common.{rules};
ghost use Rattle.sample_manager.specs.Operation.{sample_op_of, is_listed, is_init};
ghost use Rattle.sample_manager.specs.Text.{sample_text};
ghost use Rattle.sample_manager.specs.Change.{sample_change};
ghost use Rattle.sample_manager.specs.Laws.{op_respects, op_anew, op_lsn};

use crate::change::{init_page, update_page};
use crate::operation::SampleOp;
use crate::text::add_text;
use page_layout::{Page, RedoWhy};
use rmgr_hooks::Manager;
use std::alloc::Global;
use wal_base::{OutOfMemory, Text};

/// The manager of the records that fill slots of pages. Its number is PostgreSQL's for experiments
/// (src/include/access/rmgr.h, `RM_EXPERIMENTAL_ID`).
#[derive(Clone, Copy, Debug)]
pub struct SampleManager;

impl Manager for SampleManager {
    const ID: u8 = 128;

    ghost ID = { 128 };

    ghost is_known = { λ info. is_listed (sample_op_of info) };

    ghost is_fresh = { λ info id. is_init (sample_op_of info) };

    ghost text = { λ info main. sample_text (sample_op_of info) main };

    ghost change = { λ info id main block p. sample_change (sample_op_of info) main p };

    fn knows(&self, info: u8) -> bool {
        SampleOp::of(info).is_listed()
    }

    fn is_fresh(&self, info: u8, _: u8) -> bool {
        SampleOp::of(info).is_init()
    }

    fn describe(&self, alloc: Global, info: u8, main: &[u8]) -> Result<Text, OutOfMemory> {
        let mut text = String::new(alloc);
        add_text(&mut text, SampleOp::of(info), main)?;
        Ok(Text::from(text))
    }

    fn redo(&self, info: u8, _: u8, main: &[u8], _: &[u8], page: &mut Page) -> Result<(), RedoWhy> {
        match SampleOp::of(info) {
            SampleOp::Init => {
                init_page(page);
                Ok(())
            }
            SampleOp::Update => update_page(main, page),
            SampleOp::Unlisted => Err(RedoWhy::Layout),
        }
    }

    ghost is_custom = { Prim.search (rules) };

    ghost respects = { λ n info id main block. op_respects n (sample_op_of info) main };

    ghost makes_anew = { λ info id main block p q fresh.
        op_anew (sample_op_of info) main p q fresh };

    ghost keeps_lsn = { λ info id main block p q old size done.
        op_lsn (sample_op_of info) main p q old size done };
}
