// The pages of the relation. No call takes memory.
ghost use Rattle.std.specs.Prelude.{◌≡◌, [], ◌∷◌, ◌+◌, ◌%◌, ◌^◌, length};
ghost use Rattle.byteorder.specs.Endian.{little_bytes};
ghost use Rattle.page_layout.specs.Edits.{init_bytes};
ghost use Rattle.pair_maker.specs.Blocks.{block_page, inserted};

use crate::side::value_of;
use block_layouts::{HeapTuple, TupleHeader};
use heap_pages::redo_insert;
use page_layout::init::put_init;
use page_layout::lsn::put_lsn;
use record_layouts::HeapInsert;

/// Where the logs of a pair begin.
pub(crate) const LOG_START: u64 = 0x10_0000;

/// The transaction of all inserts.
pub(crate) const TRANSACTION: u32 = 700;

// What the record of an insert holds of the tuple's header.
const HEADER: TupleHeader = TupleHeader {
    infomask2: 1,
    infomask: 0x0800,
    hoff: 24,
};

// The bytes of a tuple behind its header.
fn tuple_data(seed: u64, block: u32) -> [u8; 5]
    ensures { result ≡ 0 ∷ little_bytes 4 ((block + seed) % 2 ^ 32) }
{
    let mut bytes = [0; 5];
    bytes[1..].copy_from_slice(&value_of(seed, block).to_le_bytes());
    bytes
}

// Puts the tuple of a block onto an empty page.
fn insert(page: &mut [u8], seed: u64, block: u32)
    requires { page.old ≡ init_bytes 0 }
    ensures { page.new ≡ inserted seed block }
{
    let bytes = tuple_data(seed, block);
    let op = HeapInsert { off: 1, flags: 0 };
    let tuple = HeapTuple {
        header: HEADER,
        bytes: &bytes,
    };
    match redo_insert(page, TRANSACTION, block, &op, tuple) {
        Ok(()) => (),
        Err(_) => unreachable!(),
    }
}

/// Makes a block in a page: empty, or with its tuple, whose insert ends there.
#[tactic(auto, unfolding(crate::specs::Blocks::block_page))]
pub(crate) fn put_block(page: &mut [u8], seed: u64, block: u32, end: Option<u64>)
    requires { length page.old ≡ 8192 }
    ensures { page.new ≡ block_page seed block end }
{
    put_init(page, 0);
    match end {
        None => put_lsn(page, LOG_START),
        Some(end) => {
            insert(page, seed, block);
            put_lsn(page, end);
        }
    }
}
