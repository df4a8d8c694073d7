// What an extension states of its resource manager, and the functions that it hands in.
ghost use Rattle.std.specs.Prelude.{ℕ, Bool, List, ◌≡◌, ◌≤◌, true, false, length, take, IfOk, Ok};
ghost use Rattle.page_masks.specs.Law.{IsOperation, Redone, view};
ghost use Rattle.redo_steps.specs.Redo.{Redoes};

use page_layout::{Page, RedoWhy};
use std::alloc::Global;
use wal_base::{OutOfMemory, Text};

/// A resource manager of an extension: PostgreSQL 16, src/include/access/xlog_internal.h, RmgrData, of
/// which `describe` is `rm_desc` and `redo` is `rm_redo`.
///
/// It states what its records mean as definitions, and its methods are proved to be these. Replay and
/// pg_rewind ask no more of it than the laws below.
pub trait Manager {
    /// Its number, from 128 to 255.
    const ID: u8;

    ghost ID: { ℕ };

    /// The infos of the records that it knows.
    ghost is_known: { ℕ → Bool };

    /// The blocks of a record whose pages are made anew, by info and block id.
    ghost is_fresh: { ℕ → ℕ → Bool };

    /// The text of a record, by its info and main bytes.
    ghost text: { ℕ → List ℕ → List ℕ };

    /// What a record makes of a page, by its info, the block's id, the main bytes and the block's bytes,
    /// but for the LSN.
    ghost change: { (info id : ℕ) (main block : List ℕ) → List ℕ → Redone };

    /// Whether it knows records of this info.
    fn knows(&self, info: u8) -> bool
        ensures { result ≡ is_known info };

    /// Whether a record of this info makes the page of the block with this id anew, whatever stood
    /// there.
    fn is_fresh(&self, info: u8, id: u8) -> bool
        ensures { result ≡ is_fresh info id };

    /// The text of a record. Answers `OutOfMemory` only for want of memory.
    fn describe(&self, alloc: Global, info: u8, main: &[u8]) -> Result<Text, OutOfMemory>
        ensures { IfOk result (λ told. told ≡ text info main.now) };

    /// Redoes a record on the page of the block with this id, but for the LSN. Answers why it can't, and
    /// then leaves the page as it was.
    fn redo(
        &self,
        info: u8,
        id: u8,
        main: &[u8],
        block: &[u8],
        page: &mut Page,
    ) -> Result<(), RedoWhy>
        ensures { Redoes (change info id main.now block.now page.old) page.old result page.new };

    /// The number is one of those for extensions.
    ghost is_custom: { (128 ≤ ID) × (ID ≤ 255) };

    /// A page stays one of 8192 bytes, and what is done to it respects the masks.
    ghost respects: { (n info id : ℕ) (main block : List ℕ) →
        IsOperation (view n) (change info id main block) };

    /// A page that is made anew doesn't depend on what stood there.
    ghost makes_anew: { (info id : ℕ) (main block p q : List ℕ) → is_fresh info id ≡ true →
        change info id main block p ≡ change info id main block q };

    /// Another keeps its LSN.
    ghost keeps_lsn: { (info id : ℕ) (main block p q : List ℕ) → is_fresh info id ≡ false →
        length p ≡ 8192 → change info id main block p ≡ Ok q → take 8 q ≡ take 8 p };
}
