//! What steps of the CRC make of each byte.

mod far;
mod near;

use far::{STEPS_72, STEPS_80, STEPS_88, STEPS_96, STEPS_104, STEPS_112, STEPS_120, STEPS_128};
use near::{STEPS_8, STEPS_16, STEPS_24, STEPS_32, STEPS_40, STEPS_48, STEPS_56, STEPS_64};

/// What 8, 16, .. and 128 steps make of each byte.
pub const TABLES: [[u32; 256]; 16] = [
    STEPS_8, STEPS_16, STEPS_24, STEPS_32, STEPS_40, STEPS_48, STEPS_56, STEPS_64, STEPS_72,
    STEPS_80, STEPS_88, STEPS_96, STEPS_104, STEPS_112, STEPS_120, STEPS_128,
];
