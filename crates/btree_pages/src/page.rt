//! B-tree pages on which records are redone.

ghost use Rattle.std.specs.Prelude.{ℕ, ◌≡◌, length, true, false, IsOk, IsTrue, MatchResult};
ghost use Rattle.page_layout.specs.Page.{IsFormed};
ghost use Rattle.page_layout.specs.declared.refusal.RedoWhy.TheVariants as RedoWhy;
ghost use Rattle.btree_pages.specs.Page.{is_btree_page};

use page_layout::RedoWhy;
use page_masks::kind::{PageKind, kind_of_bytes};

// Whether these 8192 bytes are a B-tree page.
fn is_btree_page(page: &[u8]) -> bool
    requires { length page.now ≡ 8192 }
    ensures value { result ≡ is_btree_page page.now }
    ensures formed { IsTrue result → IsFormed page.now }
{
    match kind_of_bytes(page) {
        PageKind::Btree => true,
        _ => false,
    }
}

/// Answers `PageShape` where a page isn't a B-tree page.
pub fn require_btree(page: &[u8]) -> Result<(), RedoWhy>
    requires { length page.now ≡ 8192 }
    ensures value { MatchResult result (λ done. is_btree_page page.now ≡ true)
        (λ why. (is_btree_page page.now ≡ false) × (why ≡ RedoWhy.PageShape)) }
    ensures formed { IsOk result → IsFormed page.now }
{
    if is_btree_page(page) {
        Ok(())
    } else {
        Err(RedoWhy::PageShape)
    }
}
