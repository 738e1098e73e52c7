use crate::rows::check_refused;
use std::test::Fail;

// A node of any kind up to its name: tag 0, length 1, 0A 2, length 3, name from 4 on.
#[test]
fn names(rt: HostRuntime) -> Result<(), Fail> {
    let tags: [&[u8]; 3] = [b"\x0A", b"\x12", b"\x1A"];
    for tag in tags {
        check_refused(
            &rt,
            rt.alloc(),
            tag,
            &[
                // No name, also where the Directory goes on.
                (b"\x00", 13, 2),
                (b"\x00\x0A\x01a", 13, 2),
                (b"\x03\x12\x01a", 13, 2),
                (b"\x03\x08\x01a", 13, 2),
                // Its length: not there, cut off by the node's end, not shortest, of ten bytes.
                (b"\x01\x0A", 12, 3),
                (b"\x01\x0A\x01a", 12, 3),
                (b"\x02\x0A\x80", 12, 3),
                (b"\x02\x0A\x81\x01", 12, 3),
                (b"\x07\x0A\x81\x00b\x12\x01a", 12, 3),
                (b"\x03\x0A\x80\x00", 12, 3),
                (b"\x0B\x0A\xFF\xFF\xFF\xFF\xFF\xFF\xFF\xFF\xFF\x01", 12, 3),
                // It passes the node's end, and then also the Directory's.
                (b"\x03\x0A\x02b\x1A\x06\x0A\x01c\x12\x01a", 12, 3),
                (b"\x03\x0A\x02b", 12, 3),
                // No UTF-8: a byte that never stands, a character that the name's end cuts off.
                (b"\x06\x0A\x01\xFF\x12\x01a", 15, 4),
                (b"\x04\x0A\x01\xC3\xA9", 15, 4),
                // No name.
                (b"\x05\x0A\x00\x12\x01a", 16, 4),
                (b"\x06\x0A\x01.\x12\x01a", 16, 4),
                (b"\x07\x0A\x02..\x12\x01a", 16, 4),
                (b"\x06\x0A\x01/\x12\x01a", 16, 4),
                (b"\x08\x0A\x03a/b\x12\x01a", 16, 4),
                (b"\x07\x0A\x02a\x00\x12\x01a", 16, 4),
            ],
        )?;
    }
    Ok(())
}

// A file or a directory with its Digest: name 4, 12 5, length 6, 0A 7, length 8, hash text 9 to 72, then 10 or 20 at 73.
#[test]
fn digests(rt: HostRuntime) -> Result<(), Fail> {
    let tags: [&[u8]; 2] = [b"\x0A", b"\x12"];
    for tag in tags {
        check_refused(
            &rt,
            rt.alloc(),
            tag,
            &[
                // No Digest, also where the Directory goes on.
                (b"\x03\x0A\x01a", 13, 5),
                (b"\x03\x0A\x01a\x12\x42\x0A\x40#", 13, 5),
                (b"\x05\x0A\x01a\x20\x01", 13, 5),
                (b"\x06\x0A\x01a\x0A\x01a", 13, 5),
                // Its length: not there, cut off by the node's end, not shortest, of ten bytes.
                (b"\x04\x0A\x01a\x12", 12, 6),
                (b"\x04\x0A\x01a\x12\x42\x0A\x40#", 12, 6),
                (b"\x05\x0A\x01a\x12\x81\x01", 12, 6),
                (b"\x48\x0A\x01a\x12\xC2\x00\x0A\x40#", 12, 6),
                (
                    b"\x0E\x0A\x01a\x12\xFF\xFF\xFF\xFF\xFF\xFF\xFF\xFF\xFF\x01",
                    12,
                    6,
                ),
                // It passes the node's end, and then also the Directory's.
                (b"\x47\x0A\x01a\x12\x43\x0A\x40#\x20\x01", 12, 6),
                (b"\x47\x0A\x01a\x12\x43\x0A\x40#", 12, 6),
                // No hash, also where the node goes on.
                (b"\x05\x0A\x01a\x12\x00", 13, 7),
                (b"\x47\x0A\x01a\x12\x00\x0A\x40#", 13, 7),
                (b"\x07\x0A\x01a\x12\x02\x10\x01", 13, 7),
                // Its length: not there, cut off by the Digest's end, not shortest, of ten bytes.
                (b"\x06\x0A\x01a\x12\x01\x0A", 12, 8),
                (b"\x47\x0A\x01a\x12\x01\x0A\x40#", 12, 8),
                (b"\x08\x0A\x01a\x12\x02\x0A\xC0\x01", 12, 8),
                (b"\x48\x0A\x01a\x12\x43\x0A\xC0\x00#", 12, 8),
                (
                    b"\x10\x0A\x01a\x12\x0B\x0A\xFF\xFF\xFF\xFF\xFF\xFF\xFF\xFF\xFF\x01",
                    12,
                    8,
                ),
                // It passes the Digest's end, where the node has room, and where it has none.
                (b"\x49\x0A\x01a\x12\x42\x0A\x42#\x20\x01", 12, 8),
                (b"\x47\x0A\x01a\x12\x42\x0A\x41#", 12, 8),
            ],
        )?;
    }
    Ok(())
}

// The same nodes from the hash text on: text 9 to 72, tag 73, size 74.
#[test]
fn hash_texts_and_sizes(rt: HostRuntime) -> Result<(), Fail> {
    let tags: [&[u8]; 2] = [b"\x0A", b"\x12"];
    for tag in tags {
        check_refused(
            &rt,
            rt.alloc(),
            tag,
            &[
                // No hash text: 0, 63 and 65 characters, one that is none of 0-9 and a-f.
                (b"\x07\x0A\x01a\x12\x02\x0A\x00", 14, 9),
                (b"\x46\x0A\x01a\x12\x41\x0A\x3F%", 14, 9),
                (b"\x48\x0A\x01a\x12\x43\x0A\x41#0", 14, 9),
                (b"\x47\x0A\x01a\x12\x42\x0A\x40%g", 14, 9),
                (b"\x47\x0A\x01a\x12\x42\x0A\x40%F", 14, 9),
                (b"\x47\x0A\x01a\x12\x42\x0A\x40%\xFF", 14, 9),
                // Another tag behind the hash, in the Digest.
                (b"\x49\x0A\x01a\x12\x44\x0A\x40#\x20\x01", 13, 73),
                (b"\x49\x0A\x01a\x12\x44\x0A\x40#\x18\x01", 13, 73),
                (b"\x48\x0A\x01a\x12\x43\x0A\x40#\x00", 13, 73),
                // A size that is not there, cut off by the Digest's end, not shortest, of ten bytes.
                (b"\x48\x0A\x01a\x12\x43\x0A\x40#\x10", 12, 74),
                (b"\x4A\x0A\x01a\x12\x43\x0A\x40#\x10\x20\x01", 12, 74),
                (b"\x4A\x0A\x01a\x12\x44\x0A\x40#\x10\x80\x01", 12, 74),
                (b"\x4A\x0A\x01a\x12\x45\x0A\x40#\x10\x81\x00", 12, 74),
                (b"\x4A\x0A\x01a\x12\x45\x0A\x40#\x10\x80\x00", 12, 74),
                (
                    b"\x52\x0A\x01a\x12\x4D\x0A\x40#\x10\x80\x80\x80\x80\x80\x80\x80\x80\x80\x01",
                    12,
                    74,
                ),
                (
                    b"\x52\x0A\x01a\x12\x4D\x0A\x40#\x10\xFF\xFF\xFF\xFF\xFF\xFF\xFF\xFF\xFF\x01",
                    12,
                    74,
                ),
                (
                    b"\x51\x0A\x01a\x12\x4C\x0A\x40#\x10\xFF\xFF\xFF\xFF\xFF\xFF\xFF\xFF\x00",
                    12,
                    74,
                ),
                // A written size 0.
                (b"\x49\x0A\x01a\x12\x44\x0A\x40#\x10\x00", 13, 74),
                // Something behind the size.
                (b"\x4A\x0A\x01a\x12\x45\x0A\x40#\x10\x01\x00", 13, 75),
                (b"\x4B\x0A\x01a\x12\x46\x0A\x40#\x10\x01\x10\x01", 13, 75),
                (b"\x4B\x0A\x01a\x12\x46\x0A\x40#\x10\x80\x01\x20", 13, 76),
            ],
        )?;
    }
    Ok(())
}

// What stands behind the Digest: tag 73, mark 74.
#[test]
fn ends_of_files_and_directories(rt: HostRuntime) -> Result<(), Fail> {
    check_refused(
        &rt,
        rt.alloc(),
        b"\x0A",
        &[
            // Another tag.
            (b"\x49\x0A\x01a\x12\x42\x0A\x40#\x10\x01", 13, 73),
            (b"\x49\x0A\x01a\x12\x42\x0A\x40#\x18\x01", 13, 73),
            (b"\x49\x0A\x01a\x12\x42\x0A\x40#\x32\x00", 13, 73),
            // The Digest again, in a message of 139 bytes, whose length takes two.
            (
                b"\x8B\x01\x0A\x01a\x12\x42\x0A\x40#\x12\x42\x0A\x40#",
                13,
                74,
            ),
            // A mark that is not there, cut off by the node's end, not shortest, of ten bytes.
            (b"\x48\x0A\x01a\x12\x42\x0A\x40#\x20", 12, 74),
            (b"\x48\x0A\x01a\x12\x42\x0A\x40#\x20\x01", 12, 74),
            (b"\x49\x0A\x01a\x12\x42\x0A\x40#\x20\x81\x01", 12, 74),
            (b"\x4A\x0A\x01a\x12\x42\x0A\x40#\x20\x81\x00", 12, 74),
            (
                b"\x52\x0A\x01a\x12\x42\x0A\x40#\x20\xFF\xFF\xFF\xFF\xFF\xFF\xFF\xFF\xFF\x01",
                12,
                74,
            ),
            // Another mark than 01.
            (b"\x49\x0A\x01a\x12\x42\x0A\x40#\x20\x00", 13, 74),
            (b"\x49\x0A\x01a\x12\x42\x0A\x40#\x20\x02", 13, 74),
            (b"\x4A\x0A\x01a\x12\x42\x0A\x40#\x20\x81\x01", 13, 74),
            (
                b"\x51\x0A\x01a\x12\x42\x0A\x40#\x20\xFF\xFF\xFF\xFF\xFF\xFF\xFF\xFF\x7F",
                13,
                74,
            ),
            // Something behind the mark.
            (b"\x4A\x0A\x01a\x12\x42\x0A\x40#\x20\x01\x00", 13, 75),
            (b"\x4B\x0A\x01a\x12\x42\x0A\x40#\x20\x01\x20\x01", 13, 75),
        ],
    )?;
    check_refused(
        &rt,
        rt.alloc(),
        b"\x12",
        &[
            (b"\x49\x0A\x01a\x12\x42\x0A\x40#\x20\x01", 13, 73),
            (b"\x49\x0A\x01a\x12\x42\x0A\x40#\x10\x01", 13, 73),
            (b"\x48\x0A\x01a\x12\x42\x0A\x40#\x00", 13, 73),
            (
                b"\x8B\x01\x0A\x01a\x12\x42\x0A\x40#\x12\x42\x0A\x40#",
                13,
                74,
            ),
        ],
    )
}

// A link: name 4, 12 5, length 6, target from 7 on.
#[test]
fn targets(rt: HostRuntime) -> Result<(), Fail> {
    check_refused(
        &rt,
        rt.alloc(),
        b"\x1A",
        &[
            // No target, also where the Directory goes on.
            (b"\x03\x0A\x01b", 13, 5),
            (b"\x03\x0A\x01b\x12\x01a", 13, 5),
            (b"\x06\x0A\x01b\x0A\x01a", 13, 5),
            (b"\x06\x0A\x01b\x1A\x01a", 13, 5),
            // Its length: not there, cut off by the node's end, not shortest, of ten bytes.
            (b"\x04\x0A\x01b\x12", 12, 6),
            (b"\x04\x0A\x01b\x12\x01a", 12, 6),
            (b"\x05\x0A\x01b\x12\x81\x01", 12, 6),
            (b"\x07\x0A\x01b\x12\x81\x00a", 12, 6),
            (
                b"\x0E\x0A\x01b\x12\xFF\xFF\xFF\xFF\xFF\xFF\xFF\xFF\xFF\x01",
                12,
                6,
            ),
            // It passes the node's end, and then also the Directory's.
            (b"\x06\x0A\x01b\x12\x02a\x1A\x06\x0A\x01c\x12\x01a", 12, 6),
            (b"\x06\x0A\x01b\x12\x02a", 12, 6),
            // No UTF-8, also a character that the target's end cuts off.
            (b"\x06\x0A\x01b\x12\x01\x80", 15, 7),
            (b"\x06\x0A\x01b\x12\x01\xC3\xA9", 15, 7),
            // No target.
            (b"\x05\x0A\x01b\x12\x00", 19, 7),
            (b"\x06\x0A\x01b\x12\x01\x00", 19, 7),
            (b"\x07\x0A\x01b\x12\x02a\x00", 19, 7),
            // Something behind the target.
            (b"\x07\x0A\x01b\x12\x01a\x00", 13, 8),
            (b"\x09\x0A\x01b\x12\x01a\x12\x01a", 13, 8),
            (b"\x08\x0A\x01b\x12\x01a\x20\x01", 13, 8),
        ],
    )
}
