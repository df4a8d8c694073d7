ghost use Rattle.std.specs.Prelude.{ℕ, ◌≡◌, ◌==◌, length};
ghost use Rattle.std.specs.List.{list_all};
ghost use Rattle.page_masks.specs.Kind.{kind_of, is_zero};
ghost use Rattle.page_layout.specs.Page.{Head};
ghost use Rattle.page_masks.specs.Shapes.{IsHeap, IsBtree};
ghost use Rattle.page_masks.specs.declared.kind.PageKind.TheVariants as PageKind;

use page_layout::Page;
use page_layout::bytes::u16_at;
use page_layout::shape::{bounds_of, well_formed};

/// What sort of page this is.
#[derive(Clone, Copy, Debug, PartialEq, Eq)]
pub enum PageKind {
    /// All bytes are zeros.
    Zero,
    /// A table's page: no special space.
    Heap,
    /// A B-tree's page, but for its metapage.
    Btree,
    /// A sequence's page.
    Sequence,
    /// Any other page, also one that isn't well formed.
    Other,
}

fn is_zero(page: &[u8]) -> bool
    ensures { result ≡ is_zero page.now }
{
    page.iter().all(|b| *b == 0)
}

/// The kind of a page's bytes.
#[tactic(auto, unfolding(crate::specs::Kind::kind_of))]
pub fn kind_of_bytes(page: &[u8]) -> PageKind
    requires { length page.now ≡ 8192 }
    ensures value { result ≡ kind_of page.now }
    ensures heap { result ≡ PageKind.Heap → IsHeap page.now }
    ensures btree { result ≡ PageKind.Btree → IsBtree page.now }
    ensures sequence { result ≡ PageKind.Sequence → Head page.now }
{
    if is_zero(page) {
        return PageKind::Zero;
    }
    if !well_formed(page) {
        return PageKind::Other;
    }
    let special = bounds_of(page).special;
    if special == 8192 {
        return PageKind::Heap;
    }
    if special == 8176 && u16_at(page, 8190) <= 0xFF7F {
        return PageKind::Btree;
    }
    if special == 8184 && u16_at(page, 8184) + 65536 * u16_at(page, 8186) == 0x1717 {
        return PageKind::Sequence;
    }
    PageKind::Other
}

/// The kind of a page.
pub fn kind_of(page: &Page) -> PageKind
    ensures { result ≡ kind_of page.now }
{
    kind_of_bytes(page.bytes())
}
