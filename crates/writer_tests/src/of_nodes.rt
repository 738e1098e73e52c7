use crate::rows::{Puts, check_end, check_refused, filled, started};
use std::test::Fail;

// A file bb of 74 bytes, then files: tag 74, length 75, 0A 76, length 77, name from 78 on. The node's length takes two bytes from a name of 58 on, and the name's from 128 on.
#[test]
fn names_of_files(rt: HostRuntime) -> Result<(), Fail> {
    let mut buffer = filled(rt.alloc(), &[b""], 500)?;
    let mut files = started(buffer.as_slice())?;
    assert_eq!(rt; files.put(buffer.as_mut_slice(), b"bb", b"")?, Ok(()));
    check_refused(
        &rt,
        &mut files,
        &mut buffer,
        &[
            (b"\xFF", b"", 15, 78),
            (b"c\xC3", b"", 15, 78),
            (b"/\xFF", b"", 15, 78),
            (b"", b"", 16, 78),
            (b".", b"", 16, 78),
            (b"..", b"", 16, 78),
            (b"/", b"", 16, 78),
            (b"c/d", b"", 16, 78),
            (b"c\x00", b"", 16, 78),
            // Equal, lower, a prefix.
            (b"bb", b"", 17, 78),
            (b"ba", b"", 17, 78),
            (b"a", b"", 17, 78),
            (b"B", b"", 17, 78),
            (b"b", b"", 17, 78),
            (&[b'a'; 57], b"", 17, 78),
            (&[b'a'; 58], b"", 17, 79),
            (&[b'a'; 127], b"", 17, 79),
            (&[b'a'; 128], b"", 17, 80),
            (&[b'a'; 255], b"", 17, 80),
            (&[b'c'; 256], b"", 16, 80),
        ],
    )?;
    assert_eq!(rt; files.put(buffer.as_mut_slice(), b"bbb", b"")?, Ok(()));
    let expected = b"\x0A\x48\x0A\x02bb\x12\x42\x0A\x40#\x0A\x49\x0A\x03bbb\x12\x42\x0A\x40#";
    assert_eq!(rt;
        buffer.as_slice(),
        filled(rt.alloc(), &[expected], 500)?.as_slice()
    );
    check_end(&rt, files.directories().links(), buffer.as_slice(), 149)
}

// Files b and f, a directory d up to 219, then directories, with the name from 223 on; behind a directory e from 296 on.
#[test]
fn names_of_directories(rt: HostRuntime) -> Result<(), Fail> {
    let mut buffer = filled(rt.alloc(), &[b""], 500)?;
    let mut files = started(buffer.as_slice())?;
    assert_eq!(rt; files.put(buffer.as_mut_slice(), b"b", b"")?, Ok(()));
    assert_eq!(rt; files.put(buffer.as_mut_slice(), b"f", b"")?, Ok(()));
    let mut directories = files.directories();
    check_refused(
        &rt,
        &mut directories,
        &mut buffer,
        &[(b"b", b"", 18, 150), (b"f", b"", 18, 150)],
    )?;
    assert_eq!(rt; directories.put(buffer.as_mut_slice(), b"d", b"")?, Ok(()));
    check_refused(
        &rt,
        &mut directories,
        &mut buffer,
        &[
            (b"\xFF", b"", 15, 223),
            (b"", b"", 16, 223),
            (b"..", b"", 16, 223),
            (b"d", b"", 17, 223),
            (b"c", b"", 17, 223),
            (b"f", b"", 18, 223),
            // A file has it too, but the order is judged first.
            (b"b", b"", 17, 223),
        ],
    )?;
    assert_eq!(rt; directories.put(buffer.as_mut_slice(), b"e", b"")?, Ok(()));
    check_refused(&rt, &mut directories, &mut buffer, &[(b"f", b"", 18, 296)])?;
    assert_eq!(rt; directories.put(buffer.as_mut_slice(), b"ff", b"")?, Ok(()));
    let expected =
        b"\x0A\x47\x0A\x01b\x12\x42\x0A\x40#\x0A\x47\x0A\x01f\x12\x42\x0A\x40#\x12\x47\x0A\x01d\x12\x42\x0A\x40#\x12\x47\x0A\x01e\x12\x42\x0A\x40#\x12\x48\x0A\x02ff\x12\x42\x0A\x40#";
    assert_eq!(rt;
        buffer.as_slice(),
        filled(rt.alloc(), &[expected], 500)?.as_slice()
    );
    check_end(&rt, directories.links(), buffer.as_slice(), 366)
}

// Files b and f, directories d and h, a link cc of 9 bytes up to 301, then links: tag 301, length 302, 0A 303, length 304, name from 305 on, and with a name of one byte 12 306, length 307, target from 308 on.
#[test]
fn names_and_targets_of_links(rt: HostRuntime) -> Result<(), Fail> {
    let mut buffer = filled(rt.alloc(), &[b""], 5000)?;
    let mut files = started(buffer.as_slice())?;
    assert_eq!(rt; files.put(buffer.as_mut_slice(), b"b", b"")?, Ok(()));
    assert_eq!(rt; files.put(buffer.as_mut_slice(), b"f", b"")?, Ok(()));
    let mut directories = files.directories();
    assert_eq!(rt; directories.put(buffer.as_mut_slice(), b"d", b"")?, Ok(()));
    assert_eq!(rt; directories.put(buffer.as_mut_slice(), b"h", b"")?, Ok(()));
    let mut links = directories.links();
    assert_eq!(rt; links.put(buffer.as_mut_slice(), b"cc", b"x")?, Ok(()));
    check_refused(
        &rt,
        &mut links,
        &mut buffer,
        &[
            (b"\xFF", b"x", 15, 305),
            (b"", b"x", 16, 305),
            (b".", b"x", 16, 305),
            (b"e/", b"x", 16, 305),
            (&[b'e'; 256], b"x", 16, 307),
            (b"cc", b"x", 17, 305),
            (b"c", b"x", 17, 305),
            (b"a", b"x", 17, 305),
            (b"d", b"x", 18, 305),
            (b"f", b"x", 18, 305),
            (b"h", b"x", 18, 305),
            // A file has it too, but the order is judged first.
            (b"b", b"x", 17, 305),
            // The name is judged before the target.
            (b".", b"", 16, 305),
            (b"c", b"\xFF", 17, 305),
            (b"d", b"", 18, 305),
            // Targets.
            (b"e", b"\x80", 15, 308),
            (b"e", b"\xC3", 15, 308),
            (b"e", b"\x00\xFF", 15, 308),
            (b"e", b"", 19, 308),
            (b"e", b"\x00", 19, 308),
            (b"e", b"x\x00", 19, 308),
            (b"ee", b"", 19, 309),
            // The node's length takes two bytes from a target of 123 on, and the target's from 128 on.
            (b"e", &[0; 122], 19, 308),
            (b"e", &[0; 123], 19, 309),
            (b"e", &[0; 127], 19, 309),
            (b"e", &[0; 128], 19, 310),
            (b"e", &[0xFF; 4096], 15, 310),
            (b"e", &[b't'; 4097], 19, 310),
        ],
    )?;
    assert_eq!(rt; links.put(buffer.as_mut_slice(), b"e", b"../x")?, Ok(()));
    let expected =
        b"\x0A\x47\x0A\x01b\x12\x42\x0A\x40#\x0A\x47\x0A\x01f\x12\x42\x0A\x40#\x12\x47\x0A\x01d\x12\x42\x0A\x40#\x12\x47\x0A\x01h\x12\x42\x0A\x40#\x1A\x07\x0A\x02cc\x12\x01x\x1A\x09\x0A\x01e\x12\x04../x";
    assert_eq!(rt;
        buffer.as_slice(),
        filled(rt.alloc(), &[expected], 5000)?.as_slice()
    );
    check_end(&rt, links, buffer.as_slice(), 312)
}
