//! Revisions whose bytes are given by hand.

/// Revision 0: a root alone, at 17.
pub const REVISION_0: &[u8] =
    b"PLAIN\nEND\nENDREP\nid: 0.0.r0/17\ntype: dir\ncount: 0\ntext: 0 0 4 4 2d2977d1c96f487abe4a1e202dd03b4e\ncpath: /\n\n\n17 107\n";

/// `/a`, a directory, is made: it stands at 0, the root's entries at 59, the root at 102.
pub const FIRST_DIRECTORY: &[u8] =
    b"id: 0-1.0.r1/0\ntype: dir\ncount: 0\ncpath: /a\ncopyroot: 0 /\n\nPLAIN\nK 1\na\nV 14\ndir 0-1.0.r1/0\nEND\nENDREP\nid: 0.0.r1/102\ntype: dir\npred: 0.0.r0/17\ncount: 1\ntext: 1 59 30 30 63880cd9dea1c72f787be697eaf2f7b4\ncpath: /\ncopyroot: 0 /\n\n0-1.0.r1/0 add-dir false false /a\n\n\n102 226\n";
