//! A plan of a FREEZE_PAGE.

use crate::places::Places;

/// What a FREEZE_PAGE makes of some tuples of its page (`xl_heap_freeze_plan`).
#[derive(Clone, Debug, Drop)]
pub struct FreezePlan<'a> {
    /// Their `xmax`.
    pub xmax: u32,
    /// Their `t_infomask2`.
    pub infomask2: u16,
    /// Their `t_infomask`.
    pub infomask: u16,
    /// 02: their `xvac` becomes the frozen transaction (`XLH_FREEZE_XVAC`); 04: it becomes invalid
    /// (`XLH_INVALID_XVAC`).
    pub flags: u8,
    /// The places of their lines.
    pub places: Places<'a>,
}
