//! Records of the write-ahead log: those of a valid log in order, where it ends, and why.
#![tactic(auto)]

mod cursor;
mod extent;
mod fault;
mod further;
mod header;
mod laws;
mod log_origin;
mod log_record;
mod new_pages;
mod new_record;
mod opening;
mod place;
mod reading;
mod room;
mod search;
mod why;
mod within;
mod write_fault;
mod writer;
mod writer_laws;
mod zeros;

pub use cursor::{RecordCursor, Step};
pub use fault::LogFault;
pub use header::RecordHeader;
pub use laws::{
    log_goes_on, log_is_in_order, log_is_of_files, place_has_one_outcome, spells_exactly,
};
pub use log_origin::LogOrigin;
pub use log_record::Record;
pub use place::place_at;
pub use why::Why;
pub use write_fault::LogWriteFault;
pub use writer::LogWriter;
pub use writer_laws::{
    appended_record_stands, further_pages_are_read_again, headers_are_read_again,
    written_end_is_read, written_log_is_read, written_log_is_read_back, written_record_is_read,
    written_records_are_read,
};
