//! Data pages of 8192 bytes: header, line pointers and items, and the calls that change them.
#![tactic(auto)]

pub mod add;
pub mod bytes;
pub mod delete;
pub mod init;
pub mod line;
pub mod lsn;
pub mod overwrite;
pub mod pack;
pub mod page;
pub mod refusal;
pub mod shape;
pub mod trim;

pub use line::Line;
pub use page::Page;
pub use refusal::{PageRefusal, RedoWhy};
