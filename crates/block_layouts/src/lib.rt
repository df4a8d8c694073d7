//! The layouts of the bytes that a record of the log has for a block: tuples, places, plans, items.
#![tactic(auto)]

mod dedup;
mod freeze;
mod index_tuples;
mod laws;
mod meta;
mod multi_insert;
mod places;
mod plan;
mod posting;
mod prune;
mod redirects;
mod shortened;
mod split;
mod tuple;
mod update;

pub use dedup::{Interval, Intervals, dedup_intervals};
pub use freeze::{FreezePlans, freeze_plans};
pub use index_tuples::{IndexTuples, restored_tuples};
pub use laws::{
    inserted_tuples_are_the_bytes, places_stand, plans_stand, posting_updates_are_spelled,
    prunes_are_spelled, prunes_hold_their_bytes, restored_tuples_are_the_bytes,
    splits_begin_the_bytes, updates_are_spelled, updates_hold_their_bytes,
};
pub use meta::{BtreeMeta, metapage};
pub use multi_insert::{HeapTuples, multi_insert_tuples};
pub use places::{Places, first_places};
pub use plan::FreezePlan;
pub use posting::{PostingInsert, PostingUpdates, posting_insert, posting_updates};
pub use prune::{PrunePlaces, prune_places};
pub use redirects::{Redirect, Redirects};
pub use shortened::{Update, Updates};
pub use split::{SplitTuples, split_tuples};
pub use tuple::{HeapTuple, TupleHeader, insert_tuple};
pub use update::{OldParts, UpdateTuple, update_tuple};
