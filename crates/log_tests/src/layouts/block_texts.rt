// Bytes of blocks and what they say, written out by hand from the layouts.

pub(crate) const HEAP: &str =
    "block insert 0 0 028002091805A1A2 = TupleHeader { infomask2: 32770, infomask: 2306, hoff: 24 } [5, 161, 162]
block insert 0 0 0280020918 = TupleHeader { infomask2: 32770, infomask: 2306, hoff: 24 } []
block insert 0 0 02800209 = none
# a prefix of 263 and a suffix of 521 bytes, and then the tuple
block update 1 1 07010902028002091805A1A2 = 263 521 TupleHeader { infomask2: 32770, infomask: 2306, hoff: 24 } [5] [161, 162]
block update 1 0 0902028002091805A1A2 = 521 0 TupleHeader { infomask2: 32770, infomask: 2306, hoff: 24 } [5] [161, 162]
block update 0 1 0902028002091805A1A2 = 0 521 TupleHeader { infomask2: 32770, infomask: 2306, hoff: 24 } [5] [161, 162]
block update 0 0 028002091805A1A2 = 0 0 TupleHeader { infomask2: 32770, infomask: 2306, hoff: 24 } [] [5, 161, 162]
# two bytes for the prefix, five for the header, one from 23 to hoff
block update 1 0 1818181818181818 = 6168 0 TupleHeader { infomask2: 6168, infomask: 6168, hoff: 24 } [24] []
block update 1 0 18181818181818 = none
block update 1 0 161616161616161616161616 = none
block update 0 0 FFFFFFFFFF = 0 0 TupleHeader { infomask2: 65535, infomask: 65535, hoff: 255 } [] []
block update 0 0 18181818 = none
# lines 1 to 3 and 5 to 6 are redirected, 2 is dead, 4 and 258 are unused; a last odd byte is ignored
block prune 2 1 0100030005000600020004000201 = redirected 1 to 3 5 to 6 (Some(Redirect { from: 5, to: 6 }), None) dead 2 (Some(2), None) unused 4 258 (Some(258), None)
block prune 2 1 01000300050006000200040002 = redirected 1 to 3 5 to 6 (Some(Redirect { from: 5, to: 6 }), None) dead 2 (Some(2), None) unused 4 (Some(4), None)
block prune 2 1 01000300050006000200 = redirected 1 to 3 5 to 6 (Some(Redirect { from: 5, to: 6 }), None) dead 2 (Some(2), None) unused (None, None)
block prune 2 1 010003000500060002 = none
block places 2 0 010004010900 = places 1 260 (Some(260), None)
block places 2 0 010004 = none
# two plans, of two places and of one, and these places
block freeze 2 0 785634120320020B02EE0200000000000100000304EE0100010004000901 = plans, 305419896 8195 2818 2 at 1 4 (Some(4), None), 0 1 768 4 at 265 (Some(265), None)
block freeze 2 0 785634120320020B02EE0200000000000100000304EE01000100040009 = none
block freeze 2 0 785634120320020B02EE0200000000000100000304EE01 = none
block freeze 0 0  = plans
block freeze 1 0  = none
# tuples of two bytes and of one, the second at an even offset; short, with a byte too many, a tuple too few or too many
block multi 2 0 02000100020818A1A2EE01000300020920B1 = tuples TupleHeader { infomask2: 1, infomask: 2050, hoff: 24 } [161, 162] TupleHeader { infomask2: 3, infomask: 2306, hoff: 32 } [177]
block multi 2 0 02000100020818A1A2EE01000300020920 = none
block multi 1 0 02000100020818A1A2EE = none
block multi 1 0 02000100020818A1A2EE01000300020920B1 = none
block multi 3 0 02000100020818A1A2EE01000300020920B1 = none
block multi 0 0 02 = none
";

pub(crate) const BTREE: &str =
    "# index tuples of 16 bytes, with the bit 4000 beside the size, and of 9, which take 16
block restored 0 0 000001000100104001020304050607080000020001000900090A0B0C0D0E0F10 = tuples [0, 0, 1, 0, 1, 0, 16, 64, 1, 2, 3, 4, 5, 6, 7, 8] [0, 0, 2, 0, 1, 0, 9, 0, 9, 10, 11, 12, 13, 14, 15, 16] true
block restored 0 0 000001000100104001020304050607080000020001000900090A0B0C0D0E0F = none
block restored 0 0 000001000100104001020304050607080000020001000900 = none
block restored 0 0 0000010001001040010203040506070800 = none
block restored 0 0 00000100010010 = none
# a size below that of the header is rounded up as every other
block restored 0 0 000001000100104001020304050607080000020001001000090A0B0C0D0E0F10 = tuples [0, 0, 1, 0, 1, 0, 16, 64, 1, 2, 3, 4, 5, 6, 7, 8] [0, 0, 2, 0, 1, 0, 16, 0, 9, 10, 11, 12, 13, 14, 15, 16] true
block restored 0 0 000001000100104001020304050607080000020001000800 = tuples [0, 0, 1, 0, 1, 0, 16, 64, 1, 2, 3, 4, 5, 6, 7, 8] [0, 0, 2, 0, 1, 0, 8, 0] true
block restored 0 0 000001000100104001020304050607080000020001000100 = tuples [0, 0, 1, 0, 1, 0, 16, 64, 1, 2, 3, 4, 5, 6, 7, 8] [0, 0, 2, 0, 1, 0, 1, 0] true
block restored 0 0 000001000100104001020304050607080000020001000000 = none
block split 1 0 000001000100104001020304050607080000020001000900090A0B0C0D0E0F10 = new Some([0, 0, 1, 0, 1, 0, 16, 64, 1, 2, 3, 4, 5, 6, 7, 8]) key [0, 0, 2, 0, 1, 0, 9, 0, 9, 10, 11, 12, 13, 14, 15, 16]
block split 0 0 000001000100104001020304050607080000020001000900090A0B0C0D0E0F10 = new None key [0, 0, 1, 0, 1, 0, 16, 64, 1, 2, 3, 4, 5, 6, 7, 8]
block split 1 0 000001000100104001020304050607080000020001000900090A0B0C0D0E0F = none
block split 0 0 000001000100104001020304050607 = none
# three tuples from place 1 on, and 258 from place 5 on
block dedup 2 0 0100030005000201 = intervals Interval { base: 1, count: 3 } Interval { base: 5, count: 258 } (Some(Interval { base: 5, count: 258 }), None)
block dedup 2 0 01000300050002 = none
# a tuple of 16 bytes, whose tid goes to index 2; one of no more than its header
block posting 0 0 020000000100030010000102030405060708 = at 2 [0, 0, 1, 0, 3, 0, 16, 0, 1, 2, 3, 4, 5, 6, 7, 8]
block posting 0 0 02010000010003000800 = at 258 [0, 0, 1, 0, 3, 0, 8, 0]
block posting 0 0 020100000100030008 = none
# place 2 goes; place 3 loses the tids 1 and 258, and place 260 the tid 0; a byte behind them is ignored
block shortened 1 2 02000300040102000100020101000000 = deleted 2 (Some(2), None) updates 2, 3 loses 1 258 (Some(258), None), 260 loses 0 (Some(0), None)
block shortened 1 2 02000300040102000100020101000000EE = deleted 2 (Some(2), None) updates 2, 3 loses 1 258 (Some(258), None), 260 loses 0 (Some(0), None)
block shortened 1 2 020003000401020001000201010000 = none
block shortened 1 2 02000300040102000100020101 = none
block shortened 1 2 0200030004010200 = none
block shortened 1 0 0200 = deleted 2 (Some(2), None) updates 0
block shortened 1 0 02 = none
block meta 0 0 04000000030000000100000012010000020000000000010001 = Some(BtreeMeta { version: 4, root: 3, level: 1, fast_root: 274, fast_level: 2, deleted_pages: 65536, all_equal_image: 1 })
block meta 0 0 040000000300000001000000120100000200000000000100 = None
";
