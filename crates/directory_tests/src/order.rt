use crate::rows::check_refused;
use std::test::Fail;

// Nodes of 73 and of 8 bytes with names of one: a name stands 4 bytes behind its node's tag.
#[test]
fn names_that_do_not_ascend(rt: HostRuntime) -> Result<(), Fail> {
    check_refused(
        &rt,
        rt.alloc(),
        b"",
        &[
            // Files b and a, files a and a.
            (
                b"\x0A\x47\x0A\x01b\x12\x42\x0A\x40#\x0A\x47\x0A\x01a\x12\x42\x0A\x40#",
                17,
                77,
            ),
            (
                b"\x0A\x47\x0A\x01a\x12\x42\x0A\x40#\x0A\x47\x0A\x01a\x12\x42\x0A\x40#",
                17,
                77,
            ),
            // Directories b and a, directories a and a.
            (
                b"\x12\x47\x0A\x01b\x12\x42\x0A\x40#\x12\x47\x0A\x01a\x12\x42\x0A\x40#",
                17,
                77,
            ),
            (
                b"\x12\x47\x0A\x01a\x12\x42\x0A\x40#\x12\x47\x0A\x01a\x12\x42\x0A\x40#",
                17,
                77,
            ),
            // Links: b and b, b and B, ab and a, é and z, a and c and b.
            (
                b"\x1A\x06\x0A\x01b\x12\x01a\x1A\x06\x0A\x01b\x12\x01a",
                17,
                12,
            ),
            (
                b"\x1A\x06\x0A\x01b\x12\x01a\x1A\x06\x0A\x01B\x12\x01a",
                17,
                12,
            ),
            (
                b"\x1A\x07\x0A\x02ab\x12\x01a\x1A\x06\x0A\x01a\x12\x01a",
                17,
                13,
            ),
            (
                b"\x1A\x07\x0A\x02\xC3\xA9\x12\x01a\x1A\x06\x0A\x01z\x12\x01a",
                17,
                13,
            ),
            (
                b"\x1A\x06\x0A\x01a\x12\x01a\x1A\x06\x0A\x01c\x12\x01a\x1A\x06\x0A\x01b\x12\x01a",
                17,
                20,
            ),
            // A file c, then directories b and a: the directories' names count, the file's does not.
            (
                b"\x0A\x47\x0A\x01c\x12\x42\x0A\x40#\x12\x47\x0A\x01b\x12\x42\x0A\x40#\x12\x47\x0A\x01a\x12\x42\x0A\x40#",
                17,
                150,
            ),
        ],
    )
}

#[test]
fn names_of_earlier_sections(rt: HostRuntime) -> Result<(), Fail> {
    // A file a, then: directory a; link a; file b and directory a; file b and directory b; file c, directories b and c; file b, directory c, link b.
    check_refused(
        &rt,
        rt.alloc(),
        b"\x0A\x47\x0A\x01a\x12\x42\x0A\x40#",
        &[
            (b"\x12\x47\x0A\x01a\x12\x42\x0A\x40#", 18, 77),
            (b"\x1A\x06\x0A\x01a\x12\x01a", 18, 77),
            (
                b"\x0A\x47\x0A\x01b\x12\x42\x0A\x40#\x12\x47\x0A\x01a\x12\x42\x0A\x40#",
                18,
                150,
            ),
            (
                b"\x0A\x47\x0A\x01b\x12\x42\x0A\x40#\x12\x47\x0A\x01b\x12\x42\x0A\x40#",
                18,
                150,
            ),
            (
                b"\x0A\x47\x0A\x01c\x12\x42\x0A\x40#\x12\x47\x0A\x01b\x12\x42\x0A\x40#\x12\x47\x0A\x01c\x12\x42\x0A\x40#",
                18,
                223,
            ),
            (
                b"\x0A\x47\x0A\x01b\x12\x42\x0A\x40#\x12\x47\x0A\x01c\x12\x42\x0A\x40#\x1A\x06\x0A\x01b\x12\x01a",
                18,
                223,
            ),
        ],
    )?;
    // A directory b, then: link b; directory c and link c; links a and b; links c and b, where the order fails first.
    check_refused(
        &rt,
        rt.alloc(),
        b"\x12\x47\x0A\x01b\x12\x42\x0A\x40#",
        &[
            (b"\x1A\x06\x0A\x01b\x12\x01a", 18, 77),
            (
                b"\x12\x47\x0A\x01c\x12\x42\x0A\x40#\x1A\x06\x0A\x01c\x12\x01a",
                18,
                150,
            ),
            (
                b"\x1A\x06\x0A\x01a\x12\x01a\x1A\x06\x0A\x01b\x12\x01a",
                18,
                85,
            ),
            (
                b"\x1A\x06\x0A\x01c\x12\x01a\x1A\x06\x0A\x01b\x12\x01a",
                17,
                85,
            ),
        ],
    )?;
    // A file b and a directory c, then links: a and b; a and c; d and a, which no earlier section has.
    check_refused(
        &rt,
        rt.alloc(),
        b"\x0A\x47\x0A\x01b\x12\x42\x0A\x40#\x12\x47\x0A\x01c\x12\x42\x0A\x40#",
        &[
            (
                b"\x1A\x06\x0A\x01a\x12\x01a\x1A\x06\x0A\x01b\x12\x01a",
                18,
                158,
            ),
            (
                b"\x1A\x06\x0A\x01a\x12\x01a\x1A\x06\x0A\x01c\x12\x01a",
                18,
                158,
            ),
            (
                b"\x1A\x06\x0A\x01d\x12\x01a\x1A\x06\x0A\x01a\x12\x01a",
                17,
                158,
            ),
        ],
    )
}

// Several rules are broken, and the first failure decides.
#[test]
fn judged_first(rt: HostRuntime) -> Result<(), Fail> {
    check_refused(
        &rt,
        rt.alloc(),
        b"",
        &[
            // The node's length before its name, the name before the rest, the target before what follows.
            (b"\x1A\x07\x0A\x01.\x12\x01a", 12, 1),
            (b"\x1A\x05\x0A\x01.\x12\x00", 16, 4),
            (b"\x1A\x07\x0A\x01b\x12\x01\x80\x00", 15, 7),
            // A name: 15 before 16. A target: 15 before 19.
            (b"\x1A\x07\x0A\x02/\xFF\x12\x01a", 15, 4),
            (b"\x1A\x07\x0A\x01b\x12\x02\x00\xFF", 15, 7),
            // The hash text before the size, and a broken node before the next name.
            (b"\x0A\x49\x0A\x01a\x12\x44\x0A\x40%G\x10\x00", 14, 9),
            (
                b"\x1A\x05\x0A\x01b\x12\x00\x1A\x06\x0A\x01a\x12\x01a",
                19,
                7,
            ),
        ],
    )?;
    // Behind a link b: 15 and 16 before 17, and 17 before a rest that is missing.
    check_refused(
        &rt,
        rt.alloc(),
        b"\x1A\x06\x0A\x01b\x12\x01a",
        &[
            (b"\x1A\x07\x0A\x02a\xFF\x12\x01a", 15, 12),
            (b"\x1A\x06\x0A\x01.\x12\x01a", 16, 12),
            (b"\x1A\x05\x0A\x00\x12\x01a", 16, 12),
            (b"\x1A\x03\x0A\x01a", 17, 12),
            (b"\x1A\x05\x0A\x01b\x12\x00", 17, 12),
        ],
    )?;
    // Behind a file b: 17 before a rest with a wrong tag, 18 before a rest that is missing, 17 before 18.
    check_refused(
        &rt,
        rt.alloc(),
        b"\x0A\x47\x0A\x01b\x12\x42\x0A\x40#",
        &[
            (b"\x0A\x05\x0A\x01a\x20\x00", 17, 77),
            (b"\x12\x03\x0A\x01b", 18, 77),
            (b"\x1A\x05\x0A\x01b\x12\x00", 18, 77),
            (
                b"\x12\x47\x0A\x01c\x12\x42\x0A\x40#\x12\x47\x0A\x01b\x12\x42\x0A\x40#",
                17,
                150,
            ),
        ],
    )
}
