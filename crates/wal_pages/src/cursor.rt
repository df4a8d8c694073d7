//! The pages of a log, one at a time.

ghost use Rattle.std.specs.Prelude.{◌≡◌, ◌⊎◌, ◌≤◌, [], None, Some, Ok, length, IsOk, IfOk, IfErr, IfSome, IfNone, OnOk, OnErr, IsTrue, IsErrOf};
ghost use Rattle.cluster_tree.specs.Causes.{Meets, Rose};
ghost use Rattle.cluster_tree.specs.Frame.{Reads};
ghost use Rattle.wal_pages.specs.Cursor.{Knows, forgotten};
ghost use Rattle.wal_pages.specs.Folder.{folder_of};
ghost use Rattle.wal_pages.specs.Header.{header_of, page_of};
ghost use Rattle.wal_pages.specs.Page.{page_at, answer_of, IsFree, NamesPage};
ghost use Rattle.wal_pages.specs.ValidPage.{IsValidPage};

use crate::fault::PageFault;
use crate::header::{PageHeader, header_of, page_of};
use crate::log_path::LogPath;
use crate::segment_file::{SegmentFile, load};
use cluster_tree::Tree;
use std::alloc::Global;
use std::marker::Model;
use wal_base::{Lsn, OutOfMemory, SegSize};

/// Reads the pages of a log, and holds the one that it read last: 8192 bytes, or none. The path of a
/// segment's file is made once for its pages.
#[derive(Drop)]
pub struct PageCursor {
    alloc: Global,
    log: LogPath,
    file: Option<SegmentFile>,
    bytes: Vec<u8>,
    held: Option<u64>,
}

impl Model for PageCursor {
    ghost use Rattle.std.specs.Prelude.{◌≡◌, ◌≤◌, length, IfSome};
    ghost use Rattle.wal_pages.specs.Cursor.{PageView, page_held};
    ghost use Rattle.wal_pages.specs.File.{IsFileIn};
    ghost use Rattle.wal_pages.specs.ValidPage.{IsValidPage};

    ghost Value = { PageView };

    ghost view = { λ c. record {
      log = c.log;
      held = c.held;
      page = page_held c.held c.bytes.items;
    } };

    ghost invariant = { λ c. (length c.bytes.items ≡ 8192) × (length c.log.folder.parts ≤ 63)
        × IfSome c.file (IsFileIn c.log)
        × IfSome c.held (λ at. IsValidPage c.log at c.bytes.items) };
}

impl PageCursor {
    /// A cursor over a log whose folder has at most 63 parts, which has read no page yet. Answers
    /// `OutOfMemory` only for want of memory.
    pub fn new(alloc: Global, log: LogPath) -> Result<PageCursor, OutOfMemory>
        requires room { length log.folder.parts ≤ 63 }
        ensures ok { IfOk result (λ cursor.
            cursor ≡ record { log = log; held = None; page = [] }) }
    {
        let bytes = vec![in alloc; 0; 8192]?;
        Ok(PageCursor {
            alloc,
            log,
            file: None,
            bytes,
            held: None,
        })
    }

    /// Reads the page that holds a position, from the file of its segment on the timeline that the
    /// spans give it.
    ///
    /// Answers `SegmentMissing` exactly where the folder has no file of that segment's name, an
    /// entry that is a folder or a link counting as none; `ShortSegment` exactly where the page
    /// reaches past the file's end; `BadPage` exactly where the page isn't valid, with the first
    /// rule that fails; `ReadFault` only where a read failed, which the tree has counted; and
    /// `OutOfMemory` only for want of memory. It makes no changing call.
    pub fn read_page<F: Tree>(&mut self, tree: &mut F, at: Lsn) -> Result<PageHeader, PageFault>
        ensures log { self.new.log ≡ self.old.log }
        ensures exact { IsTrue F.tells → Meets IsFree (answer_of (page_at self.old.log
            (folder_of (F.contents tree.old) self.old.log.folder) (page_of at.0))) result }
        ensures page { IsTrue F.tells → OnOk result (page_at self.old.log
            (folder_of (F.contents tree.old) self.old.log.folder) (page_of at.0)
            ≡ Ok self.new.page) }
        ensures knows { IsTrue F.tells → Knows self.new (F.contents tree.new) }
        ensures held { OnOk result (self.new.held ≡ Some (page_of at.0)) }
        ensures valid { OnOk result (IsValidPage self.old.log (page_of at.0) self.new.page) }
        ensures names { IfErr result (NamesPage self.old.log (page_of at.0)) }
        ensures header { IfOk result (λ header. header ≡ header_of self.new.page) }
        ensures whole { OnOk result (length self.new.page ≡ 8192) }
        ensures none { OnErr result (self.new ≡ forgotten self.old) }
        ensures reads { Reads F.Tree tree.old tree.new }
        ensures read_fault { IsErrOf result PageFault.ReadFault →
            Rose (F.failed_reads tree.old) (F.failed_reads tree.new) }
    {
        self.forget();
        self.turn_to(tree, at)
    }

    /// Turns to the page that holds a position: as `read_page`, but where that page is the one that
    /// is held it isn't read again.
    ///
    /// That is right for a tree whose log files are as they were when the page was read. Over any
    /// other tree the answer may be that of the page as it was; call `read_page` there, or `forget`
    /// before.
    pub fn turn_to<F: Tree>(&mut self, tree: &mut F, at: Lsn) -> Result<PageHeader, PageFault>
        ensures log { self.new.log ≡ self.old.log }
        ensures exact { IsTrue F.tells → Knows self.old (F.contents tree.old) →
            Meets IsFree (answer_of (page_at self.old.log
            (folder_of (F.contents tree.old) self.old.log.folder) (page_of at.0))) result }
        ensures page { IsTrue F.tells → Knows self.old (F.contents tree.old) →
            OnOk result (page_at self.old.log
            (folder_of (F.contents tree.old) self.old.log.folder) (page_of at.0)
            ≡ Ok self.new.page) }
        ensures knows { IsTrue F.tells → Knows self.old (F.contents tree.old) →
            Knows self.new (F.contents tree.new) }
        ensures again { self.old.held ≡ Some (page_of at.0) →
            (self.new ≡ self.old) × (tree.new ≡ tree.old) × IsOk result }
        ensures held { OnOk result (self.new.held ≡ Some (page_of at.0)) }
        ensures valid { OnOk result (IsValidPage self.old.log (page_of at.0) self.new.page) }
        ensures names { IfErr result (NamesPage self.old.log (page_of at.0)) }
        ensures header { IfOk result (λ header. header ≡ header_of self.new.page) }
        ensures whole { OnOk result (length self.new.page ≡ 8192) }
        ensures none { OnErr result (self.new ≡ forgotten self.old) }
        ensures reads { Reads F.Tree tree.old tree.new }
        ensures read_fault { IsErrOf result PageFault.ReadFault →
            Rose (F.failed_reads tree.old) (F.failed_reads tree.new) }
    {
        let page = page_of(at);
        if self.held == Some(page.0) {
            return Ok(header_of(&self.bytes));
        }
        self.held = None;
        let file = SegmentFile::of(self.alloc, &self.log, self.file.take(), page)?;
        let header = load(&self.log, &file, tree, page, &mut self.bytes)?;
        self.file = Some(file);
        self.held = Some(page.0);
        Ok(header)
    }

    /// Holds no page any more, so that the next one is read whatever it is.
    pub fn forget(&mut self)
        ensures { self.new ≡ forgotten self.old }
    {
        self.held = None;
    }

    /// The 8192 bytes of the page where the last `read_page` or `turn_to` answered Ok. Before the
    /// first one, after a refusal and after `forget` there are none.
    pub fn page(&self) -> &[u8]
        ensures value { result.now ≡ self.now.page }
        ensures bound { (length result.now ≡ 8192) ⊎ (result.now ≡ []) }
    {
        match self.held {
            Some(_) => &self.bytes,
            None => &[],
        }
    }

    /// The page that is held, where that is the one that holds a position: its 8192 bytes.
    pub fn page_with(&self, at: Lsn) -> Option<&[u8]>
        ensures held { IfSome result (λ page. self.now.held ≡ Some (page_of at.0)) }
        ensures page { IfSome result (λ page. page.now ≡ self.now.page) }
        ensures whole { IfSome result (λ page. length page.now ≡ 8192) }
        ensures none { IfNone result (self.now.held ≡ Some (page_of at.0) → ⊥) }
    {
        if self.held == Some(page_of(at).0) {
            Some(&self.bytes)
        } else {
            None
        }
    }

    /// How long the log's segments are.
    pub fn size(&self) -> SegSize
        ensures value { result ≡ self.now.log.size }
    {
        self.log.size
    }

    /// Where the log lies.
    pub fn log(&self) -> &LogPath
        ensures value { result.now ≡ self.now.log }
        ensures room { length result.now.folder.parts ≤ 63 }
    {
        &self.log
    }
}
