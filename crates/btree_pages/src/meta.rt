ghost use Rattle.std.specs.Prelude.{ℕ, ◌≡◌, length};
ghost use Rattle.btree_pages.specs.Meta.{with_root, with_fast_root, with_rest, meta_page};

use crate::special::{Special, put_empty};
use block_layouts::BtreeMeta;
use page_layout::bytes::{put, put_u16};
use redo_steps::tuple::put_u32;

/// `BTP_META`.
const META: u16 = 8;

/// `BTREE_MAGIC`.
const MAGIC: u32 = 0x053162;

// The magic number, the version and the root.
fn put_root(page: &mut [u8], meta: &BtreeMeta)
    requires { length page.old ≡ 8192 }
    ensures { page.new ≡ with_root meta.now page.old }
{
    put_u32(page, 24, MAGIC);
    put_u32(page, 28, meta.version);
    put_u32(page, 32, meta.root);
    put_u32(page, 36, meta.level);
}

// The fast root, and how many pages the last clean-up left.
fn put_fast_root(page: &mut [u8], meta: &BtreeMeta)
    requires { length page.old ≡ 8192 }
    ensures { page.new ≡ with_fast_root meta.now page.old }
{
    put_u32(page, 40, meta.fast_root);
    put_u32(page, 44, meta.fast_level);
    put_u32(page, 48, meta.deleted_pages);
}

// -1.0, which no version writes otherwise any more, and whether equal values have equal images.
fn put_rest(page: &mut [u8], meta: &BtreeMeta)
    requires { length page.old ≡ 8192 }
    ensures { page.new ≡ with_rest meta.now page.old }
{
    put(
        page,
        56,
        &[0, 0, 0, 0, 0, 0, 0xF0, 0xBF, meta.all_equal_image],
    );
}

/// Makes a metapage with these fields, whatever the page was.
pub fn redo_meta(page: &mut [u8], meta: &BtreeMeta)
    requires { length page.old ≡ 8192 }
    ensures { page.new ≡ meta_page meta.now }
{
    let special = Special {
        prev: 0,
        next: 0,
        level: 0,
        flags: META,
    };
    put_empty(page, special);
    put_root(page, meta);
    put_fast_root(page, meta);
    put_rest(page, meta);
    put_u16(page, 12, 72);
}
