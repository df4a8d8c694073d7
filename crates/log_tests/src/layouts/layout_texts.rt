// Layouts of main bytes, each whole and cut by one byte; the values are written out from the format.

pub(crate) const LAYOUTS: &str = "# The byte at place k is k + 1, so that no two fields look alike.
whole NextOid 01020304 = NextOid { oid: 67305985 }
whole BackupEnd 0102030405060708 = BackupEnd { start: Lsn(578437695752307201) }
whole FpwChange 01 = FpwChange { fpw: 1 }
whole EndOfRecovery 0102030405060708090A0B0C0D0E0F10 = EndOfRecovery { time: 578437695752307201, tli: 202050057, prev_tli: 269422093 }
whole OverwriteContrecord 0102030405060708090A0B0C0D0E0F10 = OverwriteContrecord { lsn: Lsn(578437695752307201), time: 1157159078456920585 }
whole ParameterChange 0102030405060708090A0B0C0D0E0F101112131415161718191A = ParameterChange { max_connections: 67305985, max_workers: 134678021, max_senders: 202050057, max_prepared: 269422093, max_locks: 336794129, wal_level: 404166165, wal_log_hints: 25, track_commit_ts: 26 }
whole Assignment 01020304 = Assignment { top: 67305985 }
whole ClogZeroPage 01020304 = ClogZeroPage { page: 67305985 }
whole ClogTruncate 0102030405060708090A0B0C = ClogTruncate { page: 67305985, oldest_xid: 134678021, oldest_xid_db: 202050057 }
whole RunningXacts 0102030405060708090A0B0C0D0E0F101112131415161718 = RunningXacts { count: 67305985, subcount: 134678021, overflow: 9, next_xid: 269422093, oldest_xid: 336794129, latest_xid: 404166165 }
whole StorageTruncate 0102030405060708090A0B0C0D0E0F1011121314 = StorageTruncate { blocks: 67305985, rel: RelName { space: 134678021, database: 202050057, relation: 269422093 }, flags: 336794129 }
whole DatabaseCopy 0102030405060708090A0B0C0D0E0F10 = DatabaseCopy { database: 67305985, space: 134678021, from_database: 202050057, from_space: 269422093 }
whole DatabaseCreate 0102030405060708 = DatabaseCreate { database: 67305985, space: 134678021 }
whole MultiXactZeroPage 01020304 = MultiXactZeroPage { page: 67305985 }
whole MultiXactTruncate 0102030405060708090A0B0C0D0E0F1011121314 = MultiXactTruncate { database: 67305985, first_multi: 134678021, end_multi: 202050057, first_offset: 269422093, end_offset: 336794129 }
whole HeapInsert 010203 = HeapInsert { off: 513, flags: 3 }
whole HeapDelete 0102030405060708 = HeapDelete { xmax: 67305985, off: 1541, infobits: 7, flags: 8 }
whole HeapUpdate 0102030405060708090A0B0C0D0E = HeapUpdate { old_xmax: 67305985, old_off: 1541, old_infobits: 7, flags: 8, new_xmax: 202050057, new_off: 3597 }
whole HeapTruncate 0102030405060708 = HeapTruncate { database: 67305985, nrelids: 134678021 }
whole HeapConfirm 0102 = HeapConfirm { off: 513 }
whole HeapLock 0102030405060708 = HeapLock { xmax: 67305985, off: 1541, infobits: 7, flags: 8 }
whole HeapInplace 0102 = HeapInplace { off: 513 }
whole HeapVacuum 0102 = HeapVacuum { nunused: 513 }
whole HeapVisible 0102030405 = HeapVisible { horizon: 67305985, flags: 5 }
whole HeapPrune 0102030405060708 = HeapPrune { horizon: 67305985, nredirected: 1541, ndead: 2055, catalog: None }
whole HeapFreezePage 010203040506 = HeapFreezePage { horizon: 67305985, nplans: 1541, catalog: None }
whole BtreeInsert 0102 = BtreeInsert { off: 513 }
whole BtreeSplit 0102030405060708090A = BtreeSplit { level: 67305985, first_right: 1541, new_item: 2055, posting: 2569 }
whole BtreeDedup 0102 = BtreeDedup { nintervals: 513 }
whole BtreeDelete 0102030405060708 = BtreeDelete { horizon: 67305985, ndeleted: 1541, nupdated: 2055, catalog: None }
whole BtreeVacuum 01020304 = BtreeVacuum { ndeleted: 513, nupdated: 1027 }
whole BtreeNewRoot 0102030405060708 = BtreeNewRoot { root: 67305985, level: 134678021 }
read ParameterChange FFFFFFFFFFFFFFFFFFFFFFFFFFFFFFFFFFFFFFFFFFFFFFFFFFFF = ParameterChange { max_connections: -1, max_workers: -1, max_senders: -1, max_prepared: -1, max_locks: -1, wal_level: -1, wal_log_hints: 255, track_commit_ts: 255 }
read RunningXacts FFFFFFFFFFFFFFFFFFFFFFFFFFFFFFFFFFFFFFFFFFFFFFFF = RunningXacts { count: -1, subcount: -1, overflow: 255, next_xid: 4294967295, oldest_xid: 4294967295, latest_xid: 4294967295 }
read HeapPrune 010203040506070809 = HeapPrune { horizon: 67305985, nredirected: 1541, ndead: 2055, catalog: Some(9) }
read HeapFreezePage 01020304050607 = HeapFreezePage { horizon: 67305985, nplans: 1541, catalog: Some(7) }
read BtreeDelete 010203040506070809 = BtreeDelete { horizon: 67305985, ndeleted: 1541, nupdated: 2055, catalog: Some(9) }
whole Checkpoint 00000000000000000000000000000000000000000000000000000000000000000000000000000000000000000000000000000000000000000000000000000000000000000000000000000000000000000000000000000000 = 0
";

pub(crate) const FORKS: &str = "# forks are four
whole StorageCreate 0102030405060708090A0B0C00000000 = StorageCreate { rel: RelName { space: 67305985, database: 134678021, relation: 202050057 }, fork: Main }
read CreatedName 0102030405060708090A0B0C000000 = RelName { space: 67305985, database: 134678021, relation: 202050057 }
whole StorageCreate 0102030405060708090A0B0C01000000 = StorageCreate { rel: RelName { space: 67305985, database: 134678021, relation: 202050057 }, fork: FreeSpace }
read CreatedName 0102030405060708090A0B0C010000 = RelName { space: 67305985, database: 134678021, relation: 202050057 }
whole StorageCreate 0102030405060708090A0B0C02000000 = StorageCreate { rel: RelName { space: 67305985, database: 134678021, relation: 202050057 }, fork: Visibility }
read CreatedName 0102030405060708090A0B0C020000 = RelName { space: 67305985, database: 134678021, relation: 202050057 }
whole StorageCreate 0102030405060708090A0B0C03000000 = StorageCreate { rel: RelName { space: 67305985, database: 134678021, relation: 202050057 }, fork: Init }
read CreatedName 0102030405060708090A0B0C030000 = RelName { space: 67305985, database: 134678021, relation: 202050057 }
read StorageCreate 0102030405060708090A0B0C04000000 = none
read CreatedName 0102030405060708090A0B0C040000 = RelName { space: 67305985, database: 134678021, relation: 202050057 }
read StorageCreate 0102030405060708090A0B0C00010000 = none
read CreatedName 0102030405060708090A0B0C000100 = RelName { space: 67305985, database: 134678021, relation: 202050057 }
read StorageCreate 0102030405060708090A0B0C00000080 = none
read CreatedName 0102030405060708090A0B0C000000 = RelName { space: 67305985, database: 134678021, relation: 202050057 }
";

pub(crate) const LISTS: &str = "# lists
whole DatabaseDrop 05000000020000007F06000080060000 = database 5 spaces 1663 1664
read DatabaseDrop 05000000020000007F060000800600 = none
read DatabaseDrop 05000000FEFFFFFF7F060000 = none
whole MultiXactCreate 030000000900000002000000BC02000004000000BD02000001000000 = multi 3 offset 9 members Member { xid: 700, status: 4 } Member { xid: 701, status: 1 }
read MultiXactCreate 0300000009000000FFFFFFFF = none
whole RelMapUpdate 050000007F06000003000000070809 = map [7, 8, 9]
read RelMapUpdate 050000007F060000FFFFFFFF070809 = none
whole MultiInsert 2100020003000401 = flags 33 ntuples 2 places 3 260
whole MultiInsertInit 21000200 = flags 33 ntuples 2 places 1 2
whole RestorePoint 0102030405060708090A0B0C0D0E0F101112131415161718191A1B1C1D1E1F202122232425262728292A2B2C2D2E2F303132333435363738393A3B3C3D3E3F404142434445464748 = time 578437695752307201 name [9, 10, 11, 12, 13, 14, 15, 16, 17, 18, 19, 20, 21, 22, 23, 24, 25, 26, 27, 28, 29, 30, 31, 32, 33, 34, 35, 36, 37, 38, 39, 40, 41, 42, 43, 44, 45, 46, 47, 48, 49, 50, 51, 52, 53, 54, 55, 56, 57, 58, 59, 60, 61, 62, 63, 64, 65, 66, 67, 68, 69, 70, 71, 72]
read RestorePoint 0102030405060708090A0B0C0D0E0F101112131415161718191A1B1C1D1E1F202122232425262728292A2B2C2D2E2F303132333435363738393A3B3C3D3E3F404142434445464748494A4B4C4D4E4F50 = time 578437695752307201 name [9, 10, 11, 12, 13, 14, 15, 16, 17, 18, 19, 20, 21, 22, 23, 24, 25, 26, 27, 28, 29, 30, 31, 32, 33, 34, 35, 36, 37, 38, 39, 40, 41, 42, 43, 44, 45, 46, 47, 48, 49, 50, 51, 52, 53, 54, 55, 56, 57, 58, 59, 60, 61, 62, 63, 64, 65, 66, 67, 68, 69, 70, 71, 72]
read SequenceLog 0102030405060708090A0B0C0D0E = rel 67305985/134678021/202050057 tuple [13, 14]
whole SequenceLog 0102030405060708090A0B0C = rel 67305985/134678021/202050057 tuple []
";

pub(crate) const ENDS: &str =
    "# each part of a commit or an abort alone, and all together; an abort has no messages
whole Commit 010000000000008001000000050000007F060000 = time -9223372036854775807 xinfo 1 subxacts dropped stats messages in Some(DatabaseName { database: 5, space: 1663 }) from None
whole Abort 01000000000000800200000002000000BD020000BE020000 = time -9223372036854775807 xinfo 2 subxacts 701 702 dropped stats messages in None from None
whole Commit 010000000000008004000000020000007F06000005000000004000007F0600000500000001400000 = time -9223372036854775807 xinfo 4 subxacts dropped RelName { space: 1663, database: 5, relation: 16384 } RelName { space: 1663, database: 5, relation: 16385 } stats messages in None from None
whole Abort 01000000000000800001000001000000020000000500000000400000 = time -9223372036854775807 xinfo 256 subxacts dropped stats StatsItem { kind: 2, database: 5, object: 16384 } messages in None from None
whole Commit 0100000000000080080000000100000009080706050403020100010203040506 = time -9223372036854775807 xinfo 8 subxacts dropped stats messages Message { bytes: [9, 8, 7, 6, 5, 4, 3, 2, 1, 0, 1, 2, 3, 4, 5, 6] } in None from None
whole Commit 010000000000008010000000BF020000 = time -9223372036854775807 xinfo 16 subxacts dropped stats messages in None from None prepared 703
whole Abort 010000000000008090000000BF020000616200 = time -9223372036854775807 xinfo 144 subxacts dropped stats messages in None from None prepared 703 [97, 98]
whole Commit 010000000000008020000000A0000000010000000700000000000000 = time -9223372036854775807 xinfo 32 subxacts dropped stats messages in None from Some(Origin { lsn: Lsn(4294967456), time: 7 })
whole Commit 0100000000000080BF010000050000007F06000002000000BD020000BE020000020000007F06000005000000004000007F0600000500000001400000010000000200000005000000004000000100000009080706050403020100010203040506BF020000616200A0000000010000000700000000000000 = time -9223372036854775807 xinfo 447 subxacts 701 702 dropped RelName { space: 1663, database: 5, relation: 16384 } RelName { space: 1663, database: 5, relation: 16385 } stats StatsItem { kind: 2, database: 5, object: 16384 } messages Message { bytes: [9, 8, 7, 6, 5, 4, 3, 2, 1, 0, 1, 2, 3, 4, 5, 6] } in Some(DatabaseName { database: 5, space: 1663 }) from Some(Origin { lsn: Lsn(4294967456), time: 7 }) prepared 703 [97, 98]
whole Abort 0100000000000080BF010000050000007F06000002000000BD020000BE020000020000007F06000005000000004000007F060000050000000140000001000000020000000500000000400000BF020000616200A0000000010000000700000000000000 = time -9223372036854775807 xinfo 447 subxacts 701 702 dropped RelName { space: 1663, database: 5, relation: 16384 } RelName { space: 1663, database: 5, relation: 16385 } stats StatsItem { kind: 2, database: 5, object: 16384 } messages in Some(DatabaseName { database: 5, space: 1663 }) from Some(Origin { lsn: Lsn(4294967456), time: 7 }) prepared 703 [97, 98]
whole AbortWithoutFlags 0100000000000080 = time -9223372036854775807 xinfo 0 subxacts dropped stats messages in None from None
";

pub(crate) const PREFIXES: &str = "# names are told as far as they are whole
read Dropped 01000000000000800600000002000000BD020000BE020000020000007F06000005000000004000007F0600000500000001400000 = there dropped RelName { space: 1663, database: 5, relation: 16384 } RelName { space: 1663, database: 5, relation: 16385 }
read Dropped 01000000000000800600000002000000BD020000BE020000020000007F06000005000000004000007F06000005000000014000 = there dropped RelName { space: 1663, database: 5, relation: 16384 }
read Dropped 010000000000008024000000020000007F06000005000000004000007F0600000500000001400000A00000000100000007000000000000 = there dropped RelName { space: 1663, database: 5, relation: 16384 } RelName { space: 1663, database: 5, relation: 16385 }
read Dropped 01000000000000800600000002000000BD020000BE0200 = there dropped
read Dropped 01000000000000800200000002000000BD020000BE020000020000007F06000005000000004000007F0600000500000001400000 = there dropped
read Dropped 010000000000008004000000FFFFFFFF020000007F06000005000000004000007F0600000500000001400000 = there dropped
# what is there of layouts that are not whole
read CreatedName 0102030405060708090A0B = none
read CreatedName 0102030405060708090A0B0C = RelName { space: 67305985, database: 134678021, relation: 202050057 }
read CutName 0102030405060708090A0B0C0D0E0F = none
read CutName 0102030405060708090A0B0C0D0E0F10 = RelName { space: 134678021, database: 202050057, relation: 269422093 }
read CreatePrefix 01020304050607 = DatabaseCreatePrefix { database: Some(67305985), space: None }
read DropPrefix 05000000020000007F06000080060000 = database Some(5) spaces 1663 1664
read DropPrefix 05000000020000007F060000800600 = database Some(5) spaces 1663
read DropPrefix 05000000020000 = database Some(5) spaces
read DropPrefix 050000 = database None spaces
read DropPrefix FFFFFFFFFFFFFFFFFFFFFFFFFFFFFFFFFFFFFFFF = database Some(4294967295) spaces
read ParameterPrefix 0102030405060708090A0B0C0D0E0F10111213141516171819 = ParameterPrefix { max_connections: Some(67305985), max_workers: Some(134678021), max_senders: Some(202050057), max_prepared: Some(269422093), max_locks: Some(336794129), wal_level: Some(404166165), wal_log_hints: Some(25), track_commit_ts: None }
read CheckpointPrefix 0102030405060708090A0B0C0D0E0F1011 = CheckpointPrefix { fpw: Some(17) }
read CheckpointPrefix 0102030405060708090A0B0C0D0E0F10 = CheckpointPrefix { fpw: None }
";
