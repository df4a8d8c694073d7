//! What replay does at a reference of a record.

ghost use Rattle.std.specs.Prelude.{◌≡◌, is_some};
ghost use Rattle.block_refs.specs.Parts.{ArePartsOf};
ghost use Rattle.block_effects.specs.Effects.{applied, is_left};
ghost use Rattle.block_effects.specs.Gone.{is_main};
ghost use Rattle.rmgr_hooks.specs.Custom.{handed_in};
ghost use Rattle.record_effects.specs.Acts.{act_at, act_by_rules, act_on, is_map, is_map_page, is_visible, made_or_changed, sets_map_bits};
ghost use Rattle.record_effects.specs.Managers.{done_by, is_full_page, rules_for, rules_of};

use block_effects::is_gone;
use block_refs::{BlockRef, Fork, ImageRef, Parts};
use heap_replay::{acts_on, makes_anew};
use record_layouts::{Heap2Op, Operation, XlogOp};
use rmgr_hooks::Manager;
use storage_pages::makes_sequence;
use wal_records::Record;

/// What replay does at a reference of a record.
#[derive(Clone, Copy, Debug, PartialEq, Eq)]
pub enum Act {
    /// Nothing.
    Nothing,
    /// Its image is put in place, whatever the page's LSN.
    Image,
    /// Its page is made anew, whatever it was.
    Make,
    /// Its page is changed, where its LSN is below the record's end.
    Change,
    /// Bits are set in the page of the visibility map, where its LSN is below the record's end.
    MapPage,
    /// Nothing, since the record takes the block away.
    Gone,
}

/// What a record does.
pub(crate) fn done_by(rec: &Record) -> Operation
    ensures { result ≡ done_by rec.now }
{
    let header = rec.header();
    Operation::of(header.manager, header.info)
}

fn is_full_page(op: XlogOp) -> bool
    ensures { result ≡ is_full_page op }
{
    match op {
        XlogOp::Fpi => true,
        _ => false,
    }
}

fn is_visible(op: Heap2Op) -> bool
    ensures { result ≡ is_visible op }
{
    match op {
        Heap2Op::Visible => true,
        _ => false,
    }
}

fn sets_map_bits(op: Operation) -> bool
    ensures { result ≡ sets_map_bits op }
{
    match op {
        Operation::Heap2(op) => is_visible(op),
        _ => false,
    }
}

fn is_map(fork: Fork) -> bool
    ensures { result ≡ is_map fork }
{
    match fork {
        Fork::Visibility => true,
        _ => false,
    }
}

fn is_main(fork: Fork) -> bool
    ensures { result ≡ is_main fork }
{
    match fork {
        Fork::Main => true,
        _ => false,
    }
}

fn is_left(fork: Fork) -> bool
    ensures { result ≡ is_left fork }
{
    match fork {
        Fork::FreeSpace => true,
        _ => false,
    }
}

fn is_applied(image: Option<ImageRef>) -> bool
    ensures { result ≡ is_some (applied image) }
{
    match image {
        Some(image) => image.apply,
        None => false,
    }
}

/// Whether the page of a reference of the visibility map gets bits.
fn is_map_page(rec: &Record, block: &BlockRef) -> bool
    ensures { result ≡ is_map_page rec.now block.now }
{
    sets_map_bits(done_by(rec)) && block.id == 0 && is_map(block.name.fork)
}

/// Whether the operation of one of the server's own managers does something to the page of the reference
/// with an id.
fn acts_by(op: Operation, rec: &Record, parts: &Parts, id: u8) -> bool
    requires parts { ArePartsOf rec.now parts.now }
    requires op { op ≡ done_by rec.now }
    ensures { result ≡ (rules_for op).acts rec.now parts.now id }
{
    match op {
        Operation::Xlog(op) => is_full_page(op),
        Operation::Heap(_) | Operation::Heap2(_) => acts_on(op, id),
        Operation::Btree(_) => btree_replay::acts(rec, parts, id),
        Operation::Sequence(_) => makes_sequence(op) && id == 0,
        _ => false,
    }
}

/// Whether the manager's operation does something to it.
fn acts<M: Manager>(rec: &Record, parts: &Parts, id: u8, custom: Option<&M>) -> bool
    requires parts { ArePartsOf rec.now parts.now }
    ensures { result ≡ (rules_of (handed_in M.Manager custom.entry) rec.now).acts
        rec.now parts.now id }
{
    match custom {
        Some(_) if rec.header().manager == M::ID => true,
        _ => acts_by(done_by(rec), rec, parts, id),
    }
}

/// Whether the operation of one of the server's own managers makes the page anew.
fn is_fresh_by(op: Operation, rec: &Record, parts: &Parts, id: u8) -> bool
    requires parts { ArePartsOf rec.now parts.now }
    requires op { op ≡ done_by rec.now }
    ensures { result ≡ (rules_for op).fresh rec.now parts.now id }
{
    match op {
        Operation::Xlog(op) => is_full_page(op),
        Operation::Heap(_) | Operation::Heap2(_) => makes_anew(op) && id == 0,
        Operation::Btree(_) => btree_replay::is_fresh(rec, parts, id),
        Operation::Sequence(_) => makes_sequence(op) && id == 0,
        _ => false,
    }
}

/// Whether the manager makes the page anew.
fn is_fresh<M: Manager>(rec: &Record, parts: &Parts, id: u8, custom: Option<&M>) -> bool
    requires parts { ArePartsOf rec.now parts.now }
    ensures { result ≡ (rules_of (handed_in M.Manager custom.entry) rec.now).fresh
        rec.now parts.now id }
{
    let header = rec.header();
    match custom {
        Some(manager) if header.manager == M::ID => manager.is_fresh(header.info, id),
        _ => is_fresh_by(done_by(rec), rec, parts, id),
    }
}

fn made_or_changed<M: Manager>(
    rec: &Record,
    parts: &Parts,
    block: &BlockRef,
    custom: Option<&M>,
) -> Act
    requires parts { ArePartsOf rec.now parts.now }
    ensures { result ≡ made_or_changed (handed_in M.Manager custom.entry) rec.now parts.now
        block.now }
{
    if is_fresh(rec, parts, block.id, custom) {
        Act::Make
    } else {
        Act::Change
    }
}

fn act_by_rules<M: Manager>(
    rec: &Record,
    parts: &Parts,
    block: &BlockRef,
    custom: Option<&M>,
) -> Act
    requires parts { ArePartsOf rec.now parts.now }
    ensures { result ≡ act_by_rules (handed_in M.Manager custom.entry) rec.now parts.now block.now }
{
    if is_main(block.name.fork) && acts(rec, parts, block.id, custom) {
        return made_or_changed(rec, parts, block, custom);
    }
    if is_map_page(rec, block) {
        return Act::MapPage;
    }
    Act::Nothing
}

fn act_at<M: Manager>(rec: &Record, parts: &Parts, block: &BlockRef, custom: Option<&M>) -> Act
    requires parts { ArePartsOf rec.now parts.now }
    ensures { result ≡ act_at (handed_in M.Manager custom.entry) rec.now parts.now block.now }
{
    if is_left(block.name.fork) {
        return Act::Nothing;
    }
    if is_applied(block.image) {
        return Act::Image;
    }
    act_by_rules(rec, parts, block, custom)
}

/// What replay does at a reference of a record: nothing where the record takes the block away, nor
/// where it is of the free space map; an image that is applied is put in place; else its manager
/// makes the page of a main fork anew or changes it, of the records of an extension the one that is
/// handed in, and VISIBLE sets bits of the map's page. The
/// parts have to be those of the record, and the reference one of them.
pub fn act_on<M: Manager>(rec: &Record, parts: &Parts, block: &BlockRef, custom: Option<&M>) -> Act
    requires parts { ArePartsOf rec.now parts.now }
    ensures { result ≡ act_on (handed_in M.Manager custom.entry) rec.now parts.now block.now }
{
    if is_gone(rec, parts, block.name) {
        return Act::Gone;
    }
    act_at(rec, parts, block, custom)
}
