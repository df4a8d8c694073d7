//! The tuples of a page that is restored.

ghost use Rattle.std.specs.Prelude.{ℕ, ◌≡◌, ◌+◌, ◌≤◌, length, take, map};
ghost use Rattle.page_layout.specs.Page.{IsFormed, count};
ghost use Rattle.redo_steps.specs.Redo.{Makes};
ghost use Rattle.btree_pages.specs.Items.{restored};

use crate::items::{MOST_LINES, put_last};
use block_layouts::IndexTuples;
use page_layout::RedoWhy;

// Lays the tuples at the front, so that the last can be taken first.
#[tactic(auto, using(crate::proofs::RestoreLemmas::laid_next))]
fn lay_tuples<'a>(into: &mut [&'a [u8]], mut tuples: IndexTuples<'a>)
    requires { length tuples ≤ length into.old }
    ensures { map (λ tuple. tuple.now) (take (length tuples.entry) into.new) ≡ tuples.entry }
{
    let mut i = 0;
    while let Some(tuple) = tuples.next() {
        into[i] = tuple;
        i += 1;
    }
}

// Adds these tuples, the last first.
fn put_backwards(page: &mut [u8], tuples: &[&[u8]]) -> Result<(), RedoWhy>
    requires { IsFormed page.old }
    ensures { Makes (restored (map (λ tuple. tuple.now) tuples.now) page.old) result page.new }
{
    let mut i = tuples.len();
    while i > 0 {
        i -= 1;
        put_last(page, tuples[i])?;
    }
    Ok(())
}

/// Adds the tuples of a record to an empty page, so that the last of them gets place 1. Answers
/// `Room`.
#[tactic(auto, using(crate::proofs::RestoreLemmas::too_many))]
pub fn restore(page: &mut [u8], tuples: IndexTuples<'_>) -> Result<(), RedoWhy>
    requires { IsFormed page.old }
    ensures { Makes (restored tuples.entry page.old) result page.new }
{
    if tuples.len() > MOST_LINES {
        return Err(RedoWhy::Room);
    }
    let none: &[u8] = &[];
    let mut room = [none; MOST_LINES];
    let size = tuples.len();
    lay_tuples(&mut room, tuples);
    put_backwards(page, &room[..size])
}
