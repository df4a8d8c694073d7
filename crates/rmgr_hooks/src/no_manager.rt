// No manager.
ghost use Rattle.std.specs.Prelude.{[], false, Err};
ghost use Rattle.std.proofs.Common.{refl, rules};
ghost use Rattle.page_layout.specs.declared.refusal.RedoWhy.TheVariants.{Layout};
ghost use Rattle.rmgr_hooks.specs.Refusals.{refusals_respect};

use crate::manager::Manager;
use page_layout::{Page, RedoWhy};
use std::alloc::Global;
use wal_base::{OutOfMemory, Text};

/// A manager that knows no record, where no extension hands one in.
#[derive(Clone, Copy, Debug)]
pub struct NoManager;

impl Manager for NoManager {
    const ID: u8 = 255;

    ghost ID = { 255 };

    ghost is_known = { λ _. false };

    ghost is_fresh = { λ _ _. false };

    ghost text = { λ _ _. [] };

    ghost change = { λ _ _ _ _ _. Err Layout };

    fn knows(&self, _: u8) -> bool {
        false
    }

    fn is_fresh(&self, _: u8, _: u8) -> bool {
        false
    }

    fn describe(&self, alloc: Global, _: u8, _: &[u8]) -> Result<Text, OutOfMemory> {
        Text::new(alloc, "")
    }

    fn redo(&self, _: u8, _: u8, _: &[u8], _: &[u8], _: &mut Page) -> Result<(), RedoWhy> {
        Err(RedoWhy::Layout)
    }

    ghost is_custom = { Prim.search (rules) };

    ghost respects = { λ n info id main block. refusals_respect n Layout };

    ghost makes_anew = { λ _ _ _ _ _ _ _. refl };

    ghost keeps_lsn = { Prim.search (rules) };
}
