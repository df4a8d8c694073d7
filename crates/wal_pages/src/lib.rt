//! Pages of the write-ahead log: the valid page at a position, or the one reason why there is none.
#![tactic(auto)]

mod cursor;
mod fault;
mod field;
mod header;
mod laws;
mod log_path;
mod segment_file;
mod validity;

pub use cursor::PageCursor;
pub use fault::PageFault;
pub use field::PageField;
pub use header::{
    FIRST_IS_CONTRECORD, FIRST_IS_OVERWRITE_CONTRECORD, LONG_HEADER, LONG_HEADER_SIZE, PAGE_SIZE,
    PageHeader, REMOVABLE, SHORT_HEADER_SIZE, header_of, header_size, page_of,
};
pub use laws::{page_laws, pages_are_of_files};
pub use log_path::LogPath;
