//! Lines that are events, blank lines and comments, and faulty lines.

use super::Row;

pub static ROWS: [Row; 7] = [
    // An empty trace writes nothing.
    Row {
        trace: b"",
        output: b"",
    },
    // Numbers that name no tenant are refused. Unknown words, too few words, and faulty numbers and bytes are faults. A comment
    // and a blank line write nothing.
    Row {
        trace: b"9 alloc 0\nadmin grant 9\nfrob\n0 frob\n0\n0 alloc\n0 alloc x\n\
            0 alloc 4294967296\n00000000000 alloc 0\n0 write 0 abc\n# note\n\n",
        output: b"!> refused 12 NoTenant\nadmin> refused 12 NoTenant\n!> fault Unknown\n\
            !> fault Unknown\n!> fault Words\n!> fault Words\n!> fault Number\n!> fault Number\n\
            !> fault Number\n!> fault Hex\n",
    },
    // A comment and blank lines write nothing.
    Row {
        trace: b"# note\n \t\n\nfrob\n",
        output: b"!> fault Unknown\n",
    },
    // A hex digit is 0 to 9, a to f or A to F.
    Row {
        trace: b"0 write 0 0g\n",
        output: b"!> fault Hex\n",
    },
    // A last line without LF is a line too. One CR at the end of a line is dropped.
    Row {
        trace: b"0 alloc 0\r\n0 alloc 0\r",
        output: b"0> refused 1 NoFrames\n0> refused 1 NoFrames\n",
    },
    // Blanks around words do not matter, and numbers may have leading zeros.
    Row {
        trace: b"\t00  alloc\t 0000000000 \n",
        output: b"0> refused 1 NoFrames\n",
    },
    // Places, lengths, patterns and numbers at the ends of their ranges, lines with two faults, and bytes such as CR that do not
    // separate words. A line is a comment only if its first word begins with `#`.
    Row {
        trace: b"admin grant 0\n0 alloc 3\n0 read 32767 2\n0 read 32768 1\n\
            0 write 4294967295 00\n\
            0 write 32704 0000000000000000000000000000000000000000000000000000000000000000000000000\
            0000000000000000000000000000000000000000000000000000000\n\
            0 write 32705 0000000000000000000000000000000000000000000000000000000000000000000000000\
            0000000000000000000000000000000000000000000000000000000\n\
            0 write 0 00000000000000000000000000000000000000000000000000000000000000000000000000000\
            00000000000000000000000000000000000000000000000000000\n\
            0 cache 16 8 0000000000000000000000000000000000\n0 free 8\n0 free 4294967295\n\
            0 alloc 4294967295\n0 take 4294967295\n0 give 4294967295 0\n\
            0 cache 16 4294967295 00\nadmin takeback 0 4294967295\nadmin takeback 4294967295 0\n\
            4294967295 report\n4294967296 report\n0x alloc 0\n0 alloc #\n0 alloc 0\r\r\n\
            -1 alloc 0\n0 ALLOC 0\n0 #\n\xff\nadmin\n0 alloc 0 0\n0 alloc x y\n0 cache x 8 zz\n\
            00 alloc 0\n#0 alloc 0\n",
        output: b"admin> granted 0 slot 0 superblock 0\n0> frame 0\n0> refused 4 OutOfReach\n\
            0> refused 4 OutOfReach\n0> refused 4 OutOfReach\n0> written 64\n\
            0> refused 4 OutOfReach\n!> fault Hex\n!> fault Hex\n0> refused 3 NotABlock\n\
            0> refused 3 NotABlock\n0> refused 2 BadOrder\n0> refused 9 NoCache\n\
            0> refused 9 NoCache\n0> refused 7 BadAlign\nadmin> refused 14 NoSlot\n\
            admin> refused 12 NoTenant\n!> refused 12 NoTenant\n!> fault Number\n\
            !> fault Number\n!> fault Number\n!> fault Number\n!> fault Unknown\n\
            !> fault Unknown\n!> fault Unknown\n!> fault Unknown\n!> fault Words\n\
            !> fault Words\n!> fault Words\n!> fault Number\n0> refused 1 NoFrames\n",
    },
];
