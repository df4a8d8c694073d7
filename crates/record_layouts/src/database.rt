//! Operations of the manager Database, and their layouts.

ghost use Rattle.std.specs.Prelude.{◌≡◌};
ghost use Rattle.record_layouts.specs.Database.{database_copy_of, database_create_of, database_op_of, database_drop_of, create_prefix_of, drop_prefix_of, database_number, database_is_whole};

use crate::bytes::word;
use crate::fields::u32_if;
use crate::items::Items;
use layout::u32_at;

/// An operation of the manager Database (`XLOG_DBASE_..` of src/include/commands/dbcommands_xlog.h).
#[derive(Clone, Copy, Debug, PartialEq, Eq)]
pub enum DatabaseOp {
    /// A database is made by copying files.
    CreateFileCopy,
    /// A database is made whose blocks are in the log.
    CreateWalLog,
    /// A database goes.
    Drop,
    /// An operation that version 16 does not have: its number, `info` without the low four bits.
    Unlisted(u8),
}

impl DatabaseOp {
    /// The operation of a record with this `info`, whose low four bits belong to every manager alike.
    #[tactic(auto, unfolding(crate::specs::Database::database_op_of))]
    pub fn of(info: u8) -> DatabaseOp
        ensures { result ≡ database_op_of info }
    {
        match info & 0xF0 {
            0x00 => DatabaseOp::CreateFileCopy,
            0x10 => DatabaseOp::CreateWalLog,
            0x20 => DatabaseOp::Drop,
            number => DatabaseOp::Unlisted(number),
        }
    }

    /// Its number, as `info` has it.
    pub fn number(self) -> u8
        ensures { result ≡ database_number self }
    {
        match self {
            DatabaseOp::CreateFileCopy => 0x00,
            DatabaseOp::CreateWalLog => 0x10,
            DatabaseOp::Drop => 0x20,
            DatabaseOp::Unlisted(number) => number,
        }
    }

    /// Whether the main bytes hold its whole layout. An operation whose layout isn't read here is
    /// whole.
    pub fn is_whole(self, main: &[u8]) -> bool
        ensures { result ≡ database_is_whole self main.now }
    {
        match self {
            DatabaseOp::CreateFileCopy => DatabaseCopy::read(main).is_some(),
            DatabaseOp::CreateWalLog => DatabaseCreate::read(main).is_some(),
            DatabaseOp::Drop => DatabaseDrop::read(main).is_some(),
            DatabaseOp::Unlisted(_) => true,
        }
    }
}

/// What DROP says (`xl_dbase_drop_rec`).
#[derive(Drop)]
pub struct DatabaseDrop<'a> {
    /// The database that goes.
    pub database: u32,
    /// Its tablespaces.
    pub spaces: Items<'a, u32>,
}

impl<'a> DatabaseDrop<'a> {
    /// The layout at the front of the main bytes, or `None` where it isn't whole: the number of
    /// tablespaces, which is signed, is negative, or fewer stand behind it.
    pub fn read(bytes: &'a [u8]) -> Option<DatabaseDrop<'a>>
        ensures { result ≡ database_drop_of bytes.now }
    {
        let database = word(bytes)?;
        let spaces = Items::read(database.rest.slice())?;
        Some(DatabaseDrop {
            database: database.value,
            spaces: spaces.value,
        })
    }
}

/// What is there of CREATE_WAL_LOG, also where its layout isn't whole.
#[derive(Clone, Copy, Debug, PartialEq, Eq)]
pub struct DatabaseCreatePrefix {
    /// The database that is made.
    pub database: Option<u32>,
    /// Its tablespace.
    pub space: Option<u32>,
}

impl DatabaseCreatePrefix {
    /// Each field whose bytes are there.
    pub fn read(bytes: &[u8]) -> DatabaseCreatePrefix
        ensures { result ≡ create_prefix_of bytes.now }
    {
        DatabaseCreatePrefix {
            database: u32_if(bytes, 0),
            space: u32_if(bytes, 4),
        }
    }
}

/// What is there of DROP, also where its layout isn't whole.
#[derive(Drop)]
pub struct DatabaseDropPrefix<'a> {
    /// The database that goes.
    pub database: Option<u32>,
    /// Its tablespaces, as many as are there of those that are counted. A negative number counts
    /// none.
    pub spaces: Items<'a, u32>,
}

impl<'a> DatabaseDropPrefix<'a> {
    /// Each field whose bytes are there.
    pub fn read(bytes: &'a [u8]) -> DatabaseDropPrefix<'a>
        ensures { result ≡ drop_prefix_of bytes.now }
    {
        match word(bytes) {
            None => DatabaseDropPrefix {
                database: None,
                spaces: Items::new(bytes, 0),
            },
            Some(database) => DatabaseDropPrefix {
                database: Some(database.value),
                spaces: Items::prefix(database.rest.slice()),
            },
        }
    }
}

/// What CREATE_FILE_COPY says (`xl_dbase_create_file_copy_rec`).
#[derive(Clone, Copy, Debug, PartialEq, Eq)]
pub struct DatabaseCopy {
    /// The database that is made.
    pub database: u32,
    /// Its tablespace.
    pub space: u32,
    /// The database that is copied.
    pub from_database: u32,
    /// Its tablespace.
    pub from_space: u32,
}

impl DatabaseCopy {
    /// The layout at the front of the main bytes, or `None` where there are fewer than 16.
    pub fn read(bytes: &[u8]) -> Option<DatabaseCopy>
        ensures { result ≡ database_copy_of bytes.now }
    {
        if bytes.len() < 16 {
            return None;
        }
        Some(DatabaseCopy {
            database: u32_at(bytes, 0),
            space: u32_at(bytes, 4),
            from_database: u32_at(bytes, 8),
            from_space: u32_at(bytes, 12),
        })
    }
}

/// What CREATE_WAL_LOG says (`xl_dbase_create_wal_log_rec`).
#[derive(Clone, Copy, Debug, PartialEq, Eq)]
pub struct DatabaseCreate {
    /// The database that is made.
    pub database: u32,
    /// Its tablespace.
    pub space: u32,
}

impl DatabaseCreate {
    /// The layout at the front of the main bytes, or `None` where there are fewer than 8.
    pub fn read(bytes: &[u8]) -> Option<DatabaseCreate>
        ensures { result ≡ database_create_of bytes.now }
    {
        if bytes.len() < 8 {
            return None;
        }
        Some(DatabaseCreate {
            database: u32_at(bytes, 0),
            space: u32_at(bytes, 4),
        })
    }
}
