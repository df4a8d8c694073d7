//! Redo of records of the manager Sequence.

ghost use Rattle.std.specs.Prelude.{◌≡◌, length};
ghost use Rattle.block_refs.specs.Parts.{ArePartsOf};
ghost use Rattle.page_masks.specs.Law.{stamped};
ghost use Rattle.redo_steps.specs.Redo.{Makes, Redoes};
ghost use Rattle.storage_pages.specs.SequencePage.{empty_sequence, is_log, makes_sequence, sequence_operation, sequence_page};

use block_refs::Parts;
use page_layout::add::{add_refusal, put_new};
use page_layout::bytes::put;
use page_layout::init::put_init;
use page_layout::lsn::put_lsn;
use page_layout::{Page, RedoWhy};
use record_layouts::{Operation, SequenceLog, SequenceOp};
use redo_steps::why::why_of;
use wal_records::Record;

/// `SEQ_MAGIC` as the special space of a sequence's page has it, and where that begins.
const MAGIC: [u8; 4] = [0x17, 0x17, 0, 0];

const SPECIAL: usize = 8184;

fn is_log(op: SequenceOp) -> bool
    ensures { result ≡ is_log op }
{
    match op {
        SequenceOp::Log => true,
        _ => false,
    }
}

/// Whether an operation makes the page of reference 0 anew as a sequence's.
pub fn makes_sequence(op: Operation) -> bool
    ensures { result ≡ makes_sequence op }
{
    match op {
        Operation::Sequence(op) => is_log(op),
        _ => false,
    }
}

/// Makes an empty page of a sequence.
fn put_empty(page: &mut [u8])
    requires { length page.old ≡ 8192 }
    ensures value { page.new ≡ empty_sequence }
    ensures size { length page.new ≡ 8192 }
{
    put_init(page, 4);
    put(page, SPECIAL, &MAGIC);
}

/// Makes the page of a sequence with this tuple.
fn put_sequence(page: &mut [u8], tuple: &[u8]) -> Result<(), RedoWhy>
    requires { length page.old ≡ 8192 }
    ensures { Makes (sequence_page tuple.now) result page.new }
{
    put_empty(page);
    if let Some(refusal) = add_refusal(page, tuple.len(), 1, false) {
        return Err(why_of(refusal));
    }
    put_new(page, tuple, 1, false);
    Ok(())
}

/// All but the LSN.
fn make_page(rec: &Record, parts: &Parts, page: &mut [u8]) -> Result<(), RedoWhy>
    requires parts { ArePartsOf rec.now parts.now }
    requires size { length page.old ≡ 8192 }
    ensures { Makes (sequence_operation rec.now parts.now 0 page.old) result page.new }
{
    let Some(log) = SequenceLog::read(parts.main_bytes(rec)) else {
        return Err(RedoWhy::Layout);
    };
    put_sequence(page, log.tuple.slice())
}

/// Redoes LOG of the manager Sequence: makes the sequence's page anew, whatever it was, with the
/// tuple that stands behind the name in the main bytes, and with the record's end as LSN. The parts
/// have to be those of the record.
///
/// Answers `Layout` where the main bytes are too few for the name, then `Room` where the tuple
/// doesn't fit; then the page is as it was. It takes no memory.
#[tactic(auto, using(page_layout::proofs::Lent::over_same))]
pub fn redo_sequence(rec: &Record, parts: &Parts, page: &mut Page) -> Result<(), RedoWhy>
    requires parts { ArePartsOf rec.now parts.now }
    ensures exact { Redoes (stamped rec.now.end (sequence_operation rec.now parts.now 0) page.old)
        page.old result page.new }
{
    let mut room = [0u8; 8192];
    make_page(rec, parts, &mut room)?;
    put_lsn(&mut room, rec.end().0);
    page.bytes_mut().copy_from_slice(&room);
    Ok(())
}
