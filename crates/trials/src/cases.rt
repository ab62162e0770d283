//! Inputs of `merge` and what is printed of them, worked out from the rules.
//!
//! An input is written in hexadecimal digits. Blanks and bars between them stand for nothing: they part the fields and
//! the records.
use crate::Case;

/// Heads and marks.
pub(crate) static HEADS: &[Case] = &[
    Case {
        name: "empty input",
        input: "",
        prints: "shown 0 tombstones 0\nclock\n",
    },
    Case {
        name: "three heads and no record",
        input: "4C3702 | 4C3602 | 4C3702",
        prints: "shown 0 tombstones 0\nclock\n",
    },
    Case {
        name: "two characters in a run",
        input: "4C3701 | 5255 020001 00 000000 01 02 00000058 00000059",
        prints: "shown 2 tombstones 0\n2.1 00000058\n2.2 00000059\nclock 2:2\n",
    },
    Case {
        name: "one byte where the first head should be",
        input: "49",
        prints: "fault 1 format 1\n",
    },
    Case {
        name: "kind cut off",
        input: "4C37",
        prints: "fault 1 format 2\n",
    },
    Case {
        name: "record first, no head",
        input: "494E 010001 00 000000 01 00000041",
        prints: "fault 16 merge 0\n",
    },
    Case {
        name: "kind 0",
        input: "4C3600",
        prints: "fault 16 merge 2\n",
    },
    Case {
        name: "kind 3",
        input: "4C3703",
        prints: "fault 16 merge 2\n",
    },
    Case {
        name: "kind changed in the second log",
        input: "4C3601 | 494E 010001 00 000000 01 00000041 | 4C3702",
        prints: "fault 16 merge 19\n",
    },
    Case {
        name: "kind of the second log cut off",
        input: "4C3601 | 4C37",
        prints: "fault 1 format 5\n",
    },
    Case {
        name: "unknown head mark after a record",
        input: "4C3601 | 494E 010001 00 000000 01 00000041 | 4C3801",
        prints: "fault 2 format 17\n",
    },
    Case {
        name: "run in a format 6 log behind a format 7 log",
        input: "4C3701 | 4C3601 | 5255 010001 00 000000 01 02 00000041 00000042",
        prints: "fault 2 format 6\n",
    },
    Case {
        name: "single records in a format 7 log",
        input: "4C3701 | 494E 010001 00 000000 01 00000041 | 494E 010002 01 010001 010001 01 00000042 | 4445 010003 01 010002 010001",
        prints: "shown 1 tombstones 1\n1.2 00000042\nclock 1:3\n",
    },
    Case {
        name: "lone byte where a mark should be",
        input: "4C3601 | 494E 010001 00 000000 01 00000041 | 49",
        prints: "fault 1 format 18\n",
    },
];

/// Fields that are cut off.
pub(crate) static EXTENTS: &[Case] = &[
    Case {
        name: "editor cut off",
        input: "4C3601 | 494E",
        prints: "fault 1 format 5\n",
    },
    Case {
        name: "number cut off after one byte",
        input: "4C3601 | 494E 0100",
        prints: "fault 1 format 7\n",
    },
    Case {
        name: "pair count cut off",
        input: "4C3601 | 4445 010001",
        prints: "fault 1 format 8\n",
    },
    Case {
        name: "pair cut off after its editor",
        input: "4C3601 | 494E 010002 01 01",
        prints: "fault 1 format 10\n",
    },
    Case {
        name: "parent cut off",
        input: "4C3601 | 494E 010001 00 0000",
        prints: "fault 1 format 11\n",
    },
    Case {
        name: "element cut off by one byte",
        input: "4C3601 | 494E 010001 00 000000 01 000000",
        prints: "fault 1 format 16\n",
    },
    Case {
        name: "target cut off",
        input: "4C3601 | 4445 010002 01 010001 0100",
        prints: "fault 1 format 14\n",
    },
    Case {
        name: "run length cut off",
        input: "4C3701 | 5255 010001 00 000000 01",
        prints: "fault 1 format 13\n",
    },
    Case {
        name: "last element of a run cut off",
        input: "4C3701 | 5255 010001 00 000000 01 02 00000041 000000",
        prints: "fault 1 format 21\n",
    },
    Case {
        name: "cell cut off by one byte",
        input: "4C3602 | 494E 010001 00 000000 01 000000410000000000000000",
        prints: "fault 1 format 25\n",
    },
];

/// Identifiers.
pub(crate) static NUMBERING: &[Case] = &[
    Case {
        name: "editor 0, number 0 behind it",
        input: "4C3601 | 494E 000000 00 000000 01 00000041",
        prints: "fault 3 format 5\n",
    },
    Case {
        name: "editor 0 before a cut off number",
        input: "4C3601 | 4445 00",
        prints: "fault 3 format 5\n",
    },
    Case {
        name: "number 0",
        input: "4C3601 | 494E 010000 00 000000 01 00000041",
        prints: "fault 3 format 6\n",
    },
    Case {
        name: "number 0 before 17 pairs",
        input: "4C3601 | 494E 010000 11",
        prints: "fault 3 format 6\n",
    },
    Case {
        name: "run of 64 passing 65535 by one, elements cut off",
        input: "4C3701 | 5255 01FFC1 01 01FFC0 010001 01 40",
        prints: "fault 3 format 16\n",
    },
    Case {
        name: "run length 65 before passing 65535",
        input: "4C3701 | 5255 01FFFF 01 01FFFE 010001 01 41",
        prints: "fault 7 format 16\n",
    },
    Case {
        name: "run ending at 65535 is read and waits",
        input: "4C3701 | 5255 01FFFE 01 01FFFD 010001 01 02 00000041 00000042",
        prints: "fault 17 merge 1.65534\n",
    },
    Case {
        name: "number 65535 is read and waits",
        input: "4C3601 | 494E 01FFFF 01 01FFFE 000000 01 00000041",
        prints: "fault 17 merge 1.65535\n",
    },
];

/// Clocks.
pub(crate) static PAIRS: &[Case] = &[
    Case {
        name: "17 pairs, cut off behind the count",
        input: "4C3601 | 494E 010001 11",
        prints: "fault 4 format 8\n",
    },
    Case {
        name: "16 pairs, the own among them, is read and waits",
        input: "4C3601 | 494E 010002 10 010001 020001 030001 040001 050001 060001 070001 080001 090001 0A0001 0B0001 0C0001 0D0001 0E0001 0F0001 100001 000000 01 00000041",
        prints: "fault 17 merge 1.2\n",
    },
    Case {
        name: "16 pairs besides the own editor",
        input: "4C3601 | 494E 200001 10 010001 020001 030001 040001 050001 060001 070001 080001 090001 0A0001 0B0001 0C0001 0D0001 0E0001 0F0001 100001 000000 01 00000041",
        prints: "fault 4 format 8\n",
    },
    Case {
        name: "15 pairs besides the own editor is read and waits",
        input: "4C3601 | 494E 200001 0F 010001 020001 030001 040001 050001 060001 070001 080001 090001 0A0001 0B0001 0C0001 0D0001 0E0001 0F0001 000000 01 00000041",
        prints: "fault 17 merge 32.1\n",
    },
    Case {
        name: "pair with editor 0",
        input: "4C3601 | 494E 010001 01 000001 000000 01 00000041",
        prints: "fault 4 format 9\n",
    },
    Case {
        name: "pair with count 0",
        input: "4C3601 | 494E 010001 01 020000 000000 01 00000041",
        prints: "fault 4 format 9\n",
    },
    Case {
        name: "pair equal to the one before",
        input: "4C3601 | 494E 010001 02 020001 020002 000000 01 00000041",
        prints: "fault 4 format 12\n",
    },
    Case {
        name: "pairs descending",
        input: "4C3601 | 494E 010001 02 030001 020001 000000 01 00000041",
        prints: "fault 4 format 12\n",
    },
    Case {
        name: "own count too small",
        input: "4C3601 | 494E 010003 01 010001 000000 01 00000041",
        prints: "fault 4 format 8\n",
    },
    Case {
        name: "own editor listed at number 1",
        input: "4C3601 | 494E 010001 01 010001 000000 01 00000041",
        prints: "fault 4 format 8\n",
    },
    Case {
        name: "own count missing before a cut off parent",
        input: "4C3601 | 494E 010002 00",
        prints: "fault 4 format 8\n",
    },
    Case {
        name: "bad pair before the wrong own count",
        input: "4C3601 | 4445 010003 02 010001 010002 010001",
        prints: "fault 4 format 12\n",
    },
    Case {
        name: "pair with editor 0 cut off",
        input: "4C3601 | 494E 010001 01 0000",
        prints: "fault 1 format 11\n",
    },
    Case {
        name: "bad pair before a cut off pair",
        input: "4C3601 | 494E 010001 02 000001",
        prints: "fault 4 format 9\n",
    },
];

/// Parents, sides and targets.
pub(crate) static REFERENCES: &[Case] = &[
    Case {
        name: "side 2",
        input: "4C3601 | 494E 010001 00 000000 02 00000041",
        prints: "fault 5 format 12\n",
    },
    Case {
        name: "side 2 before a bad parent",
        input: "4C3701 | 5255 010001 00 020001 02 02 00000041 00000042",
        prints: "fault 5 format 12\n",
    },
    Case {
        name: "parent not covered",
        input: "4C3601 | 494E 010001 00 020001 01 00000041",
        prints: "fault 5 format 9\n",
    },
    Case {
        name: "start on the left",
        input: "4C3601 | 494E 010001 00 000000 00 00000041",
        prints: "fault 5 format 9\n",
    },
    Case {
        name: "parent 0.5",
        input: "4C3601 | 494E 010001 00 000005 01 00000041",
        prints: "fault 5 format 9\n",
    },
    Case {
        name: "parent 3.0 though editor 3 is listed",
        input: "4C3601 | 494E 010001 01 030001 030000 01 00000041",
        prints: "fault 5 format 12\n",
    },
    Case {
        name: "parent is the edit itself",
        input: "4C3601 | 494E 010001 00 000000 01 00000041 | 494E 010002 01 010001 010002 01 00000042",
        prints: "fault 5 format 26\n",
    },
    Case {
        name: "bad parent, side cut off",
        input: "4C3601 | 494E 010001 00 020001",
        prints: "fault 1 format 12\n",
    },
    Case {
        name: "bad parent before a bad run length",
        input: "4C3701 | 5255 010001 00 000000 00 01",
        prints: "fault 5 format 9\n",
    },
    Case {
        name: "target 0.0",
        input: "4C3601 | 4445 010001 00 000000",
        prints: "fault 5 format 9\n",
    },
    Case {
        name: "target is the deletion itself",
        input: "4C3601 | 4445 010002 01 010001 010002",
        prints: "fault 5 format 12\n",
    },
    Case {
        name: "target number 0 of a listed editor",
        input: "4C3601 | 4445 010002 01 010001 010000",
        prints: "fault 5 format 12\n",
    },
];

/// Elements and run lengths.
pub(crate) static ELEMENTS: &[Case] = &[
    Case {
        name: "characters at the edges",
        input: "4C3701 | 5255 010001 00 000000 01 04 00000000 0000D7FF 0000E000 0010FFFF",
        prints: "shown 4 tombstones 0\n1.1 00000000\n1.2 0000D7FF\n1.3 0000E000\n1.4 0010FFFF\nclock 1:4\n",
    },
    Case {
        name: "character D800",
        input: "4C3601 | 494E 010001 00 000000 01 0000D800",
        prints: "fault 6 format 13\n",
    },
    Case {
        name: "character 110000",
        input: "4C3601 | 494E 010001 00 000000 01 00110000",
        prints: "fault 6 format 13\n",
    },
    Case {
        name: "DFFF second in a run, third cut off",
        input: "4C3701 | 5255 010001 00 000000 01 03 0000E000 0000DFFF 00",
        prints: "fault 6 format 18\n",
    },
    Case {
        name: "cells at the edges",
        input: "4C3702 | 5255 010001 00 000000 01 02 00000041FF8000000000000001 00000042007F7FFFFFFF7FFFFF",
        prints: "shown 2 tombstones 0\n1.1 00000041FF8000000000000001\n1.2 00000042007F7FFFFFFF7FFFFF\nclock 1:2\n",
    },
    Case {
        name: "cell with an infinite chainage",
        input: "4C3602 | 494E 010001 00 000000 01 00000041007F80000000000000",
        prints: "fault 6 format 13\n",
    },
    Case {
        name: "cell with a tolerance that is no number",
        input: "4C3602 | 494E 010001 00 000000 01 0000004100000000007FC00001",
        prints: "fault 6 format 13\n",
    },
    Case {
        name: "second cell of a run minus infinity",
        input: "4C3702 | 5255 010001 00 000000 01 02 00000041000000000000000000 000000420000000000FF800000",
        prints: "fault 6 format 27\n",
    },
    Case {
        name: "cell with a refused character",
        input: "4C3602 | 494E 010001 00 000000 01 0000D800000000000000000000",
        prints: "fault 6 format 13\n",
    },
    Case {
        name: "run length 0",
        input: "4C3701 | 5255 010001 00 000000 01 00",
        prints: "fault 7 format 13\n",
    },
    Case {
        name: "run length 1",
        input: "4C3701 | 5255 010001 00 000000 01 01 00000041",
        prints: "fault 7 format 13\n",
    },
    Case {
        name: "run length 65",
        input: "4C3701 | 5255 010001 00 000000 01 41",
        prints: "fault 7 format 13\n",
    },
];

/// Edits taken in, waiting and released.
pub(crate) static TAKING_IN: &[Case] = &[
    Case {
        name: "run of a seventeenth editor with a bad element",
        input: "4C3701 | 494E 010001 00 000000 01 0000007A | 494E 020001 00 000000 01 0000007A | 494E 030001 00 000000 01 0000007A | 494E 040001 00 000000 01 0000007A | 494E 050001 00 000000 01 0000007A | 494E 060001 00 000000 01 0000007A | 494E 070001 00 000000 01 0000007A | 494E 080001 00 000000 01 0000007A | 494E 090001 00 000000 01 0000007A | 494E 0A0001 00 000000 01 0000007A | 494E 0B0001 00 000000 01 0000007A | 494E 0C0001 00 000000 01 0000007A | 494E 0D0001 00 000000 01 0000007A | 494E 0E0001 00 000000 01 0000007A | 494E 0F0001 00 000000 01 0000007A | 494E 100001 00 000000 01 0000007A | 5255 110001 00 000000 01 02 0000007A 0000D800",
        prints: "fault 6 format 242\n",
    },
    Case {
        name: "lowest waiting edit is named",
        input: "4C3601 | 494E 030001 01 090001 000000 01 00000043 | 494E 02000A 01 020009 000000 01 00000042 | 4445 020009 01 020008 020001",
        prints: "fault 17 merge 2.9\n",
    },
    Case {
        name: "two edits that wait for each other",
        input: "4C3601 | 494E 020001 01 010001 000000 01 00000042 | 494E 010001 01 020001 000000 01 00000041",
        prints: "fault 17 merge 1.1\n",
    },
    Case {
        name: "bad mark behind a waiting edit",
        input: "4C3601 | 494E 010002 01 010001 010001 01 00000042 | 5858",
        prints: "fault 2 format 20\n",
    },
];

/// Documents.
pub(crate) static DOCUMENTS: &[Case] = &[
    Case {
        name: "two editors type forward, unaware of each other",
        input: "4C3701 | 5255 020001 00 000000 01 02 00000058 00000059 | 5255 010001 00 000000 01 02 00000041 00000042",
        prints: "shown 4 tombstones 0\n1.1 00000041\n1.2 00000042\n2.1 00000058\n2.2 00000059\nclock 1:2 2:2\n",
    },
    Case {
        name: "two editors type backward, unaware of each other",
        input: "4C3601 | 494E 020001 00 000000 01 00000059 | 494E 020002 01 020001 020001 00 00000058 | 494E 010001 00 000000 01 00000042 | 494E 010002 01 010001 010001 00 00000041",
        prints: "shown 4 tombstones 0\n1.2 00000041\n1.1 00000042\n2.2 00000058\n2.1 00000059\nclock 1:2 2:2\n",
    },
    Case {
        name: "the first entry deleted, another put in its place",
        input: "4C3701 | 5255 010001 00 000000 01 02 00000041 00000042 | 4445 010003 01 010002 010001 | 494E 010004 01 010003 010001 00 0000005A",
        prints: "shown 2 tombstones 1\n1.4 0000005A\n1.2 00000042\nclock 1:4\n",
    },
    Case {
        name: "the middle entry deleted, another put in its place",
        input: "4C3701 | 5255 010001 00 000000 01 03 00000041 00000042 00000043 | 4445 010004 01 010003 010002 | 494E 010005 01 010004 010002 00 00000044",
        prints: "shown 3 tombstones 1\n1.1 00000041\n1.5 00000044\n1.3 00000043\nclock 1:5\n",
    },
    Case {
        name: "two editors insert at one place, in both formats",
        input: "4C3601 | 494E 030001 01 010002 010002 00 0000004E | 4C3701 | 5255 020001 01 010002 010002 00 02 0000004D 0000004F | 5255 010001 00 000000 01 02 00000041 00000042",
        prints: "shown 5 tombstones 0\n1.1 00000041\n2.1 0000004D\n2.2 0000004F\n3.1 0000004E\n1.2 00000042\nclock 1:2 2:2 3:1\n",
    },
    Case {
        name: "an insertion behind the last entry",
        input: "4C3701 | 5255 010001 00 000000 01 02 00000041 00000042 | 494E 020001 01 010002 010002 01 00000043",
        prints: "shown 3 tombstones 0\n1.1 00000041\n1.2 00000042\n2.1 00000043\nclock 1:2 2:1\n",
    },
    Case {
        name: "an edit waits for another and is released",
        input: "4C3601 | 494E 020001 01 010001 010001 01 00000042 | 494E 010001 00 000000 01 00000041",
        prints: "shown 2 tombstones 0\n1.1 00000041\n2.1 00000042\nclock 1:1 2:1\n",
    },
    Case {
        name: "the deletion of a deletion is without effect",
        input: "4C3601 | 494E 010001 00 000000 01 00000041 | 4445 010002 01 010001 010001 | 4445 020001 01 010002 010002",
        prints: "shown 0 tombstones 1\nclock 1:2 2:1\n",
    },
    Case {
        name: "chain of waiting edits in reverse",
        input: "4C3601 | 494E 010003 01 010002 010002 01 00000043 | 494E 010002 01 010001 010001 01 00000042 | 494E 010001 00 000000 01 00000041",
        prints: "shown 3 tombstones 0\n1.1 00000041\n1.2 00000042\n1.3 00000043\nclock 1:3\n",
    },
    Case {
        name: "edits repeated in another format",
        input: "4C3701 | 5255 010001 00 000000 01 02 00000041 00000042 | 4C3601 | 494E 010002 01 010001 010001 01 00000042 | 494E 010001 00 000000 01 00000041 | 494E 010002 01 010001 010001 01 00000042",
        prints: "shown 2 tombstones 0\n1.1 00000041\n1.2 00000042\nclock 1:2\n",
    },
    Case {
        name: "insertion under a deletion, and one below it",
        input: "4C3601 | 494E 010001 00 000000 01 00000041 | 4445 010002 01 010001 010001 | 494E 010003 01 010002 010002 01 00000058 | 494E 010004 01 010003 010003 00 00000059",
        prints: "shown 0 tombstones 1\nclock 1:4\n",
    },
    Case {
        name: "deleted twice by two editors",
        input: "4C3601 | 494E 010001 00 000000 01 00000041 | 4445 030001 01 010001 010001 | 4445 020001 01 010001 010001",
        prints: "shown 0 tombstones 1\nclock 1:1 2:1 3:1\n",
    },
    Case {
        name: "siblings by editor and not by arrival",
        input: "4C3601 | 494E 640001 00 000000 01 00000064 | 494E 090001 00 000000 01 00000062 | 494E FF0001 00 000000 01 00000065 | 494E 020001 00 000000 01 00000061 | 494E 100001 00 000000 01 00000063",
        prints: "shown 5 tombstones 0\n2.1 00000061\n9.1 00000062\n16.1 00000063\n100.1 00000064\n255.1 00000065\nclock 2:1 9:1 16:1 100:1 255:1\n",
    },
    Case {
        name: "siblings on both sides of a tombstone",
        input: "4C3601 | 494E 090001 00 000000 01 00000050 | 4445 090002 01 090001 090001 | 494E 040001 01 090001 090001 00 00000062 | 494E 030001 01 090001 090001 01 00000064 | 494E 020001 01 090001 090001 00 00000061 | 494E 010001 01 090001 090001 01 00000063",
        prints: "shown 4 tombstones 1\n2.1 00000061\n4.1 00000062\n1.1 00000063\n3.1 00000064\nclock 1:1 2:1 3:1 4:1 9:2\n",
    },
    Case {
        name: "one identifier for two edits",
        input: "4C3601 | 494E 010001 00 000000 01 00000041 | 494E 010001 00 000000 01 0000005A",
        prints: "shown 1 tombstones 0\n1.1 00000041\nclock 1:1\n",
    },
    Case {
        name: "ready edit with a waiting edit's identifier is known",
        input: "4C3601 | 494E 020001 01 010001 000000 01 00000058 | 494E 020001 00 000000 01 00000059 | 494E 010001 00 000000 01 00000041",
        prints: "shown 2 tombstones 0\n1.1 00000041\n2.1 00000058\nclock 1:1 2:1\n",
    },
    Case {
        name: "run with two edits known",
        input: "4C3701 | 5255 010001 00 000000 01 02 00000041 00000042 | 5255 010001 00 000000 01 04 00000058 00000059 00000043 00000044",
        prints: "shown 4 tombstones 0\n1.1 00000041\n1.2 00000042\n1.3 00000043\n1.4 00000044\nclock 1:4\n",
    },
    Case {
        name: "run with its second edit on the shelf",
        input: "4C3701 | 494E 010002 01 010001 010001 01 00000042 | 5255 010001 00 000000 01 03 00000041 00000059 00000043",
        prints: "shown 3 tombstones 0\n1.1 00000041\n1.2 00000042\n1.3 00000043\nclock 1:3\n",
    },
    Case {
        name: "run behind a waiting edit with its first identifier",
        input: "4C3701 | 494E 020001 01 010001 000000 01 00000058 | 5255 020001 00 000000 01 02 0000005A 00000059 | 494E 010001 00 000000 01 00000041",
        prints: "shown 3 tombstones 0\n1.1 00000041\n2.1 00000058\n2.2 00000059\nclock 1:1 2:2\n",
    },
    Case {
        name: "right child beside the rest of a run",
        input: "4C3701 | 5255 020001 00 000000 01 02 00000041 00000043 | 494E 030001 01 020001 020001 01 00000044",
        prints: "shown 3 tombstones 0\n2.1 00000041\n2.2 00000043\n3.1 00000044\nclock 2:2 3:1\n",
    },
    Case {
        name: "run whose first edit waits",
        input: "4C3701 | 5255 020001 01 010001 010001 01 02 00000058 00000059 | 494E 010001 00 000000 01 00000041",
        prints: "shown 3 tombstones 0\n1.1 00000041\n2.1 00000058\n2.2 00000059\nclock 1:1 2:2\n",
    },
];
