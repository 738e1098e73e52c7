use crate::rows::{Answer, Puts, check_end, check_no_end, check_so_far, filled, started};
use std::test::Fail;

// Files a at 0 and b at 73, up to 146. In a buffer of 146 bytes no other fits, and what the bytes so far refuse still comes first.
#[test]
fn in_files(rt: HostRuntime) -> Result<(), Fail> {
    let ends: [(usize, Answer, &[u8], usize); 2] = [
        (
            146,
            Err((8, 0)),
            b"\x0A\x47\x0A\x01a\x12\x42\x0A\x40#\x0A\x47\x0A\x01b\x12\x42\x0A\x40#",
            146,
        ),
        (
            346,
            Ok(()),
            b"\x0A\x47\x0A\x01a\x12\x42\x0A\x40#\x0A\x47\x0A\x01b\x12\x42\x0A\x40#\x0A\x47\x0A\x01c\x12\x42\x0A\x40#",
            219,
        ),
    ];
    for (len, answer, bytes, count) in ends {
        let mut buffer = filled(rt.alloc(), &[b""], len)?;
        let mut files = started(buffer.as_slice())?;
        assert_eq!(rt; files.put(buffer.as_mut_slice(), b"a", b"")?, Ok(()));
        assert_eq!(rt; files.put(buffer.as_mut_slice(), b"b", b"")?, Ok(()));
        check_so_far(
            &rt,
            rt.alloc(),
            &mut files,
            len,
            &[
                // A name with 2F, equal names, a name that is no UTF-8.
                (
                    b"\x0A\x47\x0A\x01/\x12\x42\x0A\x40#\x0A\x47\x0A\x01b\x12\x42\x0A\x40#",
                    16,
                    4,
                ),
                (
                    b"\x0A\x47\x0A\x01a\x12\x42\x0A\x40#\x0A\x47\x0A\x01a\x12\x42\x0A\x40#",
                    17,
                    77,
                ),
                (
                    b"\x0A\x47\x0A\x01a\x12\x42\x0A\x40#\x0A\x47\x0A\x01\xFF\x12\x42\x0A\x40#",
                    15,
                    77,
                ),
                // A length that passes the end of the bytes so far, and no hash text.
                (
                    b"\x0A\x47\x0A\x01a\x12\x42\x0A\x40#\x0A\x48\x0A\x01b\x12\x42\x0A\x40#",
                    12,
                    74,
                ),
                (b"\x0A\x47\x0A\x01a\x12\x42\x0A\x40", 14, 9),
                // Tags of later parts: a directory, a link behind a file, a link at the start; then no tag at all.
                (
                    b"\x0A\x47\x0A\x01a\x12\x42\x0A\x40#\x12\x47\x0A\x01b\x12\x42\x0A\x40#",
                    13,
                    73,
                ),
                (
                    b"\x0A\x47\x0A\x01a\x12\x42\x0A\x40#\x1A\x06\x0A\x01b\x12\x01a",
                    13,
                    73,
                ),
                (b"\x1A\x06\x0A\x01b\x12\x01a", 13, 0),
                (b"", 13, 0),
            ],
        )?;
        assert_eq!(rt; files.put(buffer.as_mut_slice(), b"c", b"")?, answer);
        assert_eq!(rt;
            buffer.as_slice(),
            filled(rt.alloc(), &[bytes], len)?.as_slice()
        );
        check_end(&rt, files.directories().links(), buffer.as_slice(), count)?;
    }
    Ok(())
}

// A file a at 0 and a directory b at 73, up to 146.
#[test]
fn in_directories(rt: HostRuntime) -> Result<(), Fail> {
    let ends: [(usize, Answer, &[u8], usize); 2] = [
        (
            146,
            Err((8, 0)),
            b"\x0A\x47\x0A\x01a\x12\x42\x0A\x40#\x12\x47\x0A\x01b\x12\x42\x0A\x40#",
            146,
        ),
        (
            346,
            Ok(()),
            b"\x0A\x47\x0A\x01a\x12\x42\x0A\x40#\x12\x47\x0A\x01b\x12\x42\x0A\x40#\x12\x47\x0A\x01c\x12\x42\x0A\x40#",
            219,
        ),
    ];
    for (len, answer, bytes, count) in ends {
        let mut buffer = filled(rt.alloc(), &[b""], len)?;
        let mut files = started(buffer.as_slice())?;
        assert_eq!(rt; files.put(buffer.as_mut_slice(), b"a", b"")?, Ok(()));
        let mut directories = files.directories();
        assert_eq!(rt; directories.put(buffer.as_mut_slice(), b"b", b"")?, Ok(()));
        check_so_far(
            &rt,
            rt.alloc(),
            &mut directories,
            len,
            &[
                // Names with 2F, and the file's name again.
                (
                    b"\x0A\x47\x0A\x01/\x12\x42\x0A\x40#\x12\x47\x0A\x01b\x12\x42\x0A\x40#",
                    16,
                    4,
                ),
                (
                    b"\x0A\x47\x0A\x01a\x12\x42\x0A\x40#\x12\x47\x0A\x01/\x12\x42\x0A\x40#",
                    16,
                    77,
                ),
                (
                    b"\x0A\x47\x0A\x01a\x12\x42\x0A\x40#\x12\x47\x0A\x01a\x12\x42\x0A\x40#",
                    18,
                    77,
                ),
                // A link behind the file, and one at the start.
                (
                    b"\x0A\x47\x0A\x01a\x12\x42\x0A\x40#\x1A\x06\x0A\x01b\x12\x01a",
                    13,
                    73,
                ),
                (b"\x1A\x06\x0A\x01b\x12\x01a", 13, 0),
            ],
        )?;
        assert_eq!(rt; directories.put(buffer.as_mut_slice(), b"c", b"")?, answer);
        assert_eq!(rt;
            buffer.as_slice(),
            filled(rt.alloc(), &[bytes], len)?.as_slice()
        );
        check_end(&rt, directories.links(), buffer.as_slice(), count)?;
    }
    Ok(())
}

// A file a at 0, a directory b at 73 and a link c at 146, with its name at 150 and its target at 153, up to 154. A refused end gives the writer back.
#[test]
fn in_links(rt: HostRuntime) -> Result<(), Fail> {
    let rows: [(&[u8], u8, usize); 8] = [
        // The file's name with 2F, the file's name again in the directory.
        (
            b"\x0A\x47\x0A\x01/\x12\x42\x0A\x40#\x12\x47\x0A\x01b\x12\x42\x0A\x40#\x1A\x06\x0A\x01c\x12\x01x",
            16,
            4,
        ),
        (
            b"\x0A\x47\x0A\x01a\x12\x42\x0A\x40#\x12\x47\x0A\x01a\x12\x42\x0A\x40#\x1A\x06\x0A\x01c\x12\x01x",
            18,
            77,
        ),
        // In the link: the file's name, the directory's name, targets that are none, a length that passes the end, a file's tag.
        (
            b"\x0A\x47\x0A\x01a\x12\x42\x0A\x40#\x12\x47\x0A\x01b\x12\x42\x0A\x40#\x1A\x06\x0A\x01a\x12\x01x",
            18,
            150,
        ),
        (
            b"\x0A\x47\x0A\x01a\x12\x42\x0A\x40#\x12\x47\x0A\x01b\x12\x42\x0A\x40#\x1A\x06\x0A\x01b\x12\x01x",
            18,
            150,
        ),
        (
            b"\x0A\x47\x0A\x01a\x12\x42\x0A\x40#\x12\x47\x0A\x01b\x12\x42\x0A\x40#\x1A\x06\x0A\x01c\x12\x01\x00",
            19,
            153,
        ),
        (
            b"\x0A\x47\x0A\x01a\x12\x42\x0A\x40#\x12\x47\x0A\x01b\x12\x42\x0A\x40#\x1A\x06\x0A\x01c\x12\x01\xFF",
            15,
            153,
        ),
        (
            b"\x0A\x47\x0A\x01a\x12\x42\x0A\x40#\x12\x47\x0A\x01b\x12\x42\x0A\x40#\x1A\x07\x0A\x01c\x12\x01x",
            12,
            147,
        ),
        (
            b"\x0A\x47\x0A\x01a\x12\x42\x0A\x40#\x12\x47\x0A\x01b\x12\x42\x0A\x40#\x0A\x06\x0A\x01c\x12\x01x",
            13,
            146,
        ),
    ];
    let ends: [(usize, Answer, &[u8], usize); 2] = [
        (
            154,
            Err((8, 0)),
            b"\x0A\x47\x0A\x01a\x12\x42\x0A\x40#\x12\x47\x0A\x01b\x12\x42\x0A\x40#\x1A\x06\x0A\x01c\x12\x01x",
            154,
        ),
        (
            354,
            Ok(()),
            b"\x0A\x47\x0A\x01a\x12\x42\x0A\x40#\x12\x47\x0A\x01b\x12\x42\x0A\x40#\x1A\x06\x0A\x01c\x12\x01x\x1A\x06\x0A\x01d\x12\x01x",
            162,
        ),
    ];
    for (len, answer, bytes, count) in ends {
        let mut buffer = filled(rt.alloc(), &[b""], len)?;
        let mut files = started(buffer.as_slice())?;
        assert_eq!(rt; files.put(buffer.as_mut_slice(), b"a", b"")?, Ok(()));
        let mut directories = files.directories();
        assert_eq!(rt; directories.put(buffer.as_mut_slice(), b"b", b"")?, Ok(()));
        let mut links = directories.links();
        assert_eq!(rt; links.put(buffer.as_mut_slice(), b"c", b"x")?, Ok(()));
        check_so_far(&rt, rt.alloc(), &mut links, len, &rows)?;
        for (changed, number, place) in rows {
            let other = filled(rt.alloc(), &[changed], len)?;
            links = check_no_end(&rt, links, other.as_slice(), number, place)?;
        }
        assert_eq!(rt; links.put(buffer.as_mut_slice(), b"d", b"x")?, answer);
        assert_eq!(rt;
            buffer.as_slice(),
            filled(rt.alloc(), &[bytes], len)?.as_slice()
        );
        check_end(&rt, links, buffer.as_slice(), count)?;
    }
    Ok(())
}
