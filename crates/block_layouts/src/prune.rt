//! What a PRUNE makes of lines.

ghost use Rattle.std.specs.Prelude.{◌≡◌};
ghost use Rattle.block_layouts.specs.Prune.{prune_places_of};

use crate::places::{PLACE_SIZE, Places};
use crate::redirects::{REDIRECT_SIZE, Redirects};

/// What a PRUNE makes of the lines of its page.
#[derive(Clone, Debug, Drop)]
pub struct PrunePlaces<'a> {
    /// Lines that become redirects.
    pub redirected: Redirects<'a>,
    /// Places of lines that become dead.
    pub dead: Places<'a>,
    /// Places of lines that become unused.
    pub unused: Places<'a>,
}

/// What a PRUNE makes of lines, of the bytes of its block 0, with the numbers of pairs and of dead
/// places that its main bytes tell, or `None` where the bytes are fewer. The unused places go to
/// the end; a last odd byte is ignored.
pub fn prune_places(bytes: &[u8], redirected: u16, dead: u16) -> Option<PrunePlaces<'_>>
    ensures value { result ≡ prune_places_of redirected dead bytes.now }
{
    let redirected = usize::from(redirected);
    let dead = usize::from(dead);
    let dead_at = REDIRECT_SIZE * redirected;
    let unused_at = dead_at + PLACE_SIZE * dead;
    if bytes.len() < unused_at {
        return None;
    }
    let unused = (bytes.len() - unused_at) / PLACE_SIZE;
    Some(PrunePlaces {
        redirected: Redirects::new(bytes, 0, redirected),
        dead: Places::new(bytes, dead_at, dead),
        unused: Places::new(bytes, unused_at, unused),
    })
}
