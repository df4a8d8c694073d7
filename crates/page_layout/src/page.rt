ghost use Rattle.std.specs.Prelude.{ℕ, ◌≡◌, ◌+◌, ◌-◌, ◌*◌, ◌<◌, ◌≤◌, length, List, replicate, IfOk, Some, None, if◌then◌else◌, ◌&&◌, ◌==◌};
ghost use Rattle.std.specs.List.{list_all};
ghost use Rattle.page_layout.specs.Page.{count, line_at, well_formed, is_place};
ghost use Rattle.page_layout.specs.Lsn.{lsn, with_lsn};
ghost use Rattle.page_layout.specs.Edits.{Answers, set_line, add_item, trim, init};
ghost use Rattle.page_layout.specs.Pack.{pack};
ghost use Rattle.page_layout.specs.Deletes.{delete_items};
ghost use Rattle.page_layout.specs.Overwrite.{overwrite_item};

use crate::add::{add_refusal, put_new};
use crate::delete::{places_refusal, put_deleted};
use crate::init::put_init;
use crate::line::{Line, line_of_pointer, pointer_at, put_line, set_refusal};
use crate::lsn::{lsn_of, put_lsn};
use crate::overwrite::{overwrite_refusal, put_overwritten};
use crate::pack::{pack_refusal, put_all_packed};
use crate::refusal::PageRefusal;
use crate::shape::{line_count, well_formed};
use crate::trim::put_trimmed;
use std::alloc::Global;
use std::marker::Model;
use wal_base::{Lsn, OutOfMemory};

/// A page of 8192 bytes, which may be any bytes.
#[derive(Drop)]
pub struct Page {
    bytes: Vec<u8>,
}

impl Model for Page {
    ghost Value = { List ℕ };

    ghost view = { λ p. p.bytes.items };

    ghost invariant = { λ p. length p.bytes.items ≡ 8192 };
}

impl Page {
    ghost use Rattle.std.specs.Borrow.{sem};
    ghost use Rattle.page_layout.specs.Lending.{LendsBytes};

    /// A page of zeros.
    pub fn zero(alloc: Global) -> Result<Page, OutOfMemory>
        ensures { IfOk result (λ page. page ≡ replicate 8192 0) }
    {
        Ok(Page {
            bytes: vec![in alloc; 0u8; 8192]?,
        })
    }

    /// The page's 8192 bytes.
    pub fn bytes(&self) -> &[u8]
        ensures value { result.now ≡ self.now }
        ensures size { length result.now ≡ 8192 }
    {
        self.bytes.as_slice()
    }

    /// The page's 8192 bytes, to be written; the page ends as what stands there last.
    pub fn bytes_mut(&mut self) -> &mut [u8]
        ensures* writes_back { sem 𝓛 (LendsBytes self.entry result) }
        ensures value { result.now ≡ self.old }
        ensures size { length result.now ≡ 8192 }
    {
        self.bytes.as_mut_slice()
    }

    /// Whether all bytes are zeros.
    pub fn is_zero(&self) -> bool
        ensures { result ≡ list_all (λ b. b == 0) self.now }
    {
        self.bytes.iter().all(|b| *b == 0)
    }

    /// The LSN in the header.
    pub fn lsn(&self) -> Lsn
        ensures { result.0 ≡ lsn self.now }
    {
        Lsn(lsn_of(self.bytes()))
    }

    /// Writes the LSN of the header; no other byte changes.
    pub fn set_lsn(&mut self, at: Lsn)
        ensures { self.new ≡ with_lsn at.0 self.old }
    {
        put_lsn(self.bytes.as_mut_slice(), at.0);
    }

    /// Makes an empty page, with `special` bytes rounded up to 8 at its end. Looks at no byte of
    /// the page. Answers `NoRoom` where `special` is more than 8168.
    pub fn init(&mut self, special: u16) -> Result<(), PageRefusal>
        ensures { Answers (init special) self.old result self.new }
    {
        if special > 8168 {
            return Err(PageRefusal::NoRoom);
        }
        put_init(self.bytes.as_mut_slice(), special as usize);
        Ok(())
    }

    /// How many lines the page has, or `None` where it isn't well formed.
    pub fn count(&self) -> Option<u16>
        ensures { result ≡ (if well_formed self.now then Some (count self.now) else None) }
    {
        let page = self.bytes();
        if well_formed(page) {
            Some(line_count(page) as u16)
        } else {
            None
        }
    }

    /// The line at a place, counted from 1; `None` where the page isn't well formed or has no such
    /// place.
    pub fn line(&self, place: u16) -> Option<Line>
        ensures { result ≡ (if well_formed self.now && is_place self.now place
            then Some (line_at self.now (place - 1)) else None) }
    {
        let page = self.bytes();
        if !well_formed(page) {
            return None;
        }
        if place == 0 || place as usize > line_count(page) {
            return None;
        }
        Some(line_of_pointer(pointer_at(page, place as usize - 1)))
    }

    /// Writes the line at a place, and no other byte. Answers `BadPage`, then `BadPlace` where the
    /// place isn't there or a number of the line is above 32767.
    pub fn set_line(&mut self, place: u16, line: Line) -> Result<(), PageRefusal>
        ensures { Answers (set_line self.old place line) self.old result self.new }
    {
        if let Some(why) = set_refusal(self.bytes(), place, line) {
            return Err(why);
        }
        put_line(self.bytes.as_mut_slice(), place as usize - 1, line);
        Ok(())
    }

    /// Adds an item below the others, with a normal line at a place: a new line, before which later
    /// ones move up, or with `overwrite` the unused line of length 0 that is there. Answers
    /// `BadPage`, then `BadPlace` where the place is 0 or past the count and one more, or with
    /// `overwrite` has another line, then `NoRoom`.
    pub fn add_item(&mut self, item: &[u8], place: u16, overwrite: bool) -> Result<(), PageRefusal>
        ensures { Answers (add_item self.old item.now place overwrite) self.old result self.new }
    {
        if let Some(why) = add_refusal(self.bytes(), item.len(), place, overwrite) {
            return Err(why);
        }
        put_new(self.bytes.as_mut_slice(), item, place, overwrite);
        Ok(())
    }

    /// Drops unused lines of length 0 at the end. Answers `BadPage`.
    pub fn trim(&mut self) -> Result<(), PageRefusal>
        ensures { Answers (trim self.old) self.old result self.new }
    {
        if !well_formed(self.bytes()) {
            return Err(PageRefusal::BadPage);
        }
        put_trimmed(self.bytes.as_mut_slice());
        Ok(())
    }

    /// Lays the items anew, in line order from the special space downwards, with zeros between the
    /// lines and the items. Answers `BadPage`, then `NoRoom`, which only a page whose items overlap
    /// can give.
    pub fn pack(&mut self) -> Result<(), PageRefusal>
        ensures { Answers (pack self.old) self.old result self.new }
    {
        if let Some(why) = pack_refusal(self.bytes()) {
            return Err(why);
        }
        put_all_packed(self.bytes.as_mut_slice());
        Ok(())
    }

    /// Takes out lines and their items. Places are counted on the page as it was. Answers
    /// `BadPage`, then `BadPlace` where the places don't rise or one isn't there, then `NoRoom`,
    /// which only a page whose items overlap can give.
    pub fn delete_items(&mut self, places: &[u16]) -> Result<(), PageRefusal>
        ensures { Answers (delete_items self.old places.now) self.old result self.new }
    {
        if let Some(why) = places_refusal(self.bytes(), places) {
            return Err(why);
        }
        put_deleted(self.bytes.as_mut_slice(), places)
    }

    /// Lays an item over the one at a place. The new one ends where the old one did, lengths rounded
    /// up to 8, and the items below follow. Answers `BadPage`, then `BadPlace` where the place isn't
    /// there or its line has length 0, then `NoRoom` where the new item needs more room than the old.
    pub fn overwrite_item(&mut self, place: u16, item: &[u8]) -> Result<(), PageRefusal>
        ensures { Answers (overwrite_item self.old place item.now) self.old result self.new }
    {
        if let Some(why) = overwrite_refusal(self.bytes(), place, item.len()) {
            return Err(why);
        }
        put_overwritten(self.bytes.as_mut_slice(), place as usize - 1, item);
        Ok(())
    }
}
