//! A rewound target, and a whole copy of its source: replay of the source's log over both.
#![tactic(auto)]

mod alike;
mod blocks;
mod converge;
mod needed;

pub use alike::rewound_is_alike;
pub use blocks::{blocks_fit, copies_have_kinds, rewound_blocks};
pub use converge::rewound_converges;
pub use needed::planned_is_needed;
