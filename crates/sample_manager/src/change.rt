//! Pages of slots, and what the sample's records make of them.

ghost use Rattle.std.specs.Prelude.{◌≡◌, ◌<◌, length};
ghost use Rattle.page_layout.specs.Edits.{init_bytes};
ghost use Rattle.redo_steps.specs.Redo.{Redoes, laid_out};
ghost use Rattle.sample_manager.specs.Change.{is_slot_page, updated, with_value};
ghost use Rattle.sample_manager.specs.Slot.{slot_update_of};

use crate::slot::SlotUpdate;
use page_layout::init::put_init;
use page_layout::shape::{bounds_of, well_formed};
use page_layout::{Page, RedoWhy};
use redo_steps::tuple::put_u32;

/// How many bytes a page's header has.
const HEADER: usize = 24;

/// Where the special space begins.
const SPECIAL: usize = 8160;

/// How many slots of four bytes stand between them.
const SLOTS: u16 = 2034;

// Makes 8192 bytes an empty page with 32 bytes of special space.
fn put_slots(page: &mut [u8])
    requires { length page.old ≡ 8192 }
    ensures value { page.new ≡ init_bytes 32 }
    ensures size { length page.new ≡ 8192 }
{
    put_init(page, 32);
}

/// Makes a page of slots with 0 in each, whatever the page was.
#[tactic(auto, using(page_layout::proofs::Lent::over_same))]
pub fn init_page(page: &mut Page)
    ensures { page.new ≡ init_bytes 32 }
{
    put_slots(page.bytes_mut());
}

// Whether these 8192 bytes are a page of slots.
fn is_slot_page(page: &[u8]) -> bool
    requires { length page.now ≡ 8192 }
    ensures { result ≡ is_slot_page page.now }
{
    well_formed(page) && bounds_of(page).special == SPECIAL
}

// Writes the value in its slot.
fn put_value(page: &mut [u8], update: SlotUpdate)
    requires size { length page.old ≡ 8192 }
    requires slot { update.slot < 2034 }
    ensures value { page.new ≡ with_value update page.old }
    ensures size { length page.new ≡ 8192 }
{
    let at = HEADER + 4 * update.slot as usize;
    put_u32(page, at, update.value);
}

// The same on a page.
#[tactic(auto, using(page_layout::proofs::Lent::over_same))]
fn write_value(page: &mut Page, update: SlotUpdate)
    requires { update.slot < 2034 }
    ensures { page.new ≡ with_value update page.old }
{
    put_value(page.bytes_mut(), update);
}

// Answers `PageShape`, then `Place`, and then leaves the page as it was.
fn put_update(page: &mut Page, update: SlotUpdate) -> Result<(), RedoWhy>
    ensures { Redoes (updated update page.old) page.old result page.new }
{
    if !is_slot_page(page.bytes()) {
        return Err(RedoWhy::PageShape);
    }
    if update.slot >= SLOTS {
        return Err(RedoWhy::Place);
    }
    write_value(page, update);
    Ok(())
}

/// Redoes an update with these main bytes. Answers `Layout` where they are fewer than 6, then
/// `PageShape` where the page isn't one of slots, then `Place` where it doesn't have the slot.
pub fn update_page(main: &[u8], page: &mut Page) -> Result<(), RedoWhy>
    ensures { Redoes (laid_out (slot_update_of main.now) (λ update. updated update page.old))
        page.old result page.new }
{
    let Some(update) = SlotUpdate::read(main) else {
        return Err(RedoWhy::Layout);
    };
    put_update(page, update)
}
