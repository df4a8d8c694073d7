//! Two clusters that are made from a number, of which one can be rewound to the other, and a copy of
//! the other as a replay begins from it.
#![tactic(auto)]

mod block_ends;
mod blocks;
mod cluster;
mod control;
mod entries;
mod inserts;
mod logs;
mod pair;
mod putting;
mod side;

pub use pair::{Pair, make_pair};
pub use side::Side;
