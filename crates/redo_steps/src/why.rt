ghost use Rattle.std.specs.Prelude.{◌≡◌};
ghost use Rattle.redo_steps.specs.Redo.{why_of};

use page_layout::{PageRefusal, RedoWhy};

/// Why a record can't be redone where a call of the page answers this.
pub fn why_of(refusal: PageRefusal) -> RedoWhy
    ensures { result ≡ why_of refusal }
{
    match refusal {
        PageRefusal::BadPlace => RedoWhy::Place,
        PageRefusal::NoRoom => RedoWhy::Room,
        PageRefusal::BadPage => RedoWhy::PageShape,
    }
}
