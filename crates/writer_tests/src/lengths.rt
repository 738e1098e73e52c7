use crate::rows::{
    Answer, Puts, check_end, check_no_end, check_so_far, digest, filled, started, told,
};
use nodes::{DirectoryNode, FileNode};
use std::test::Fail;
use writer::Files;

#[test]
fn longest_buffer(rt: HostRuntime) -> Result<(), Fail> {
    let mut buffer = vec![in rt.alloc(); 0xAAu8; 16_777_216]?;
    let mut files = started(buffer.as_slice())?;
    assert_eq!(rt; files.put(buffer.as_mut_slice(), b"a", b"")?, Ok(()));
    check_end(&rt, files.directories().links(), buffer.as_slice(), 73)?;
    buffer.push(0xAA)?;
    let fault = Files::start(buffer.as_slice()).err().ok_or("it started")?;
    assert_eq!(rt; (fault.number(), fault.place()), (5, 0));
    Ok(())
}

// A buffer of 300 bytes, lent with other lengths in each part: also without the bytes so far, and with bad nodes.
#[test]
fn other_lengths(rt: HostRuntime) -> Result<(), Fail> {
    let a = b"\x0A\x47\x0A\x01a\x12\x42\x0A\x40#";
    let rows: [(&[u8], u8, usize); 2] = [(a, 5, 0), (b"", 5, 0)];
    let mut buffer = filled(rt.alloc(), &[b""], 300)?;
    let mut files = started(buffer.as_slice())?;
    assert_eq!(rt; files.put(buffer.as_mut_slice(), b"a", b"")?, Ok(()));
    for len in [0, 299, 301] {
        check_so_far(&rt, rt.alloc(), &mut files, len, &rows)?;
    }
    assert_eq!(rt; files.put(buffer.as_mut_slice(), b"b", b"")?, Ok(()));
    let mut directories = files.directories();
    for len in [0, 299, 301] {
        check_so_far(&rt, rt.alloc(), &mut directories, len, &rows)?;
    }
    assert_eq!(rt; directories.put(buffer.as_mut_slice(), b"c", b"")?, Ok(()));
    let mut links = directories.links();
    for len in [0, 299, 301] {
        check_so_far(&rt, rt.alloc(), &mut links, len, &rows)?;
        for (bytes, number, place) in rows {
            let other = filled(rt.alloc(), &[bytes], len)?;
            links = check_no_end(&rt, links, other.as_slice(), number, place)?;
        }
    }
    assert_eq!(rt; links.put(buffer.as_mut_slice(), b"d", b"x")?, Ok(()));
    let expected =
        b"\x0A\x47\x0A\x01a\x12\x42\x0A\x40#\x0A\x47\x0A\x01b\x12\x42\x0A\x40#\x12\x47\x0A\x01c\x12\x42\x0A\x40#\x1A\x06\x0A\x01d\x12\x01x";
    assert_eq!(rt;
        buffer.as_slice(),
        filled(rt.alloc(), &[expected], 300)?.as_slice()
    );
    check_end(&rt, links, buffer.as_slice(), 227)
}

// Each row: a name, a size, whether it is executable, the buffer's length, the answer, and the bytes that are written, with their count.
#[test]
fn room_for_files(rt: HostRuntime) -> Result<(), Fail> {
    let a = b"\x0A\x47\x0A\x01a\x12\x42\x0A\x40#";
    let executable = b"\x0A\x49\x0A\x01a\x12\x42\x0A\x40#\x20\x01";
    let one = b"\x0A\x49\x0A\x01a\x12\x44\x0A\x40#\x10\x01";
    let largest =
        b"\x0A\x53\x0A\x01a\x12\x4C\x0A\x40#\x10\xFF\xFF\xFF\xFF\xFF\xFF\xFF\xFF\x7F\x20\x01";
    let rows: [(&[u8], i64, bool, usize, Answer, &[u8], usize); 16] = [
        (b"a", 0, false, 0, Err((8, 0)), b"", 0),
        (b"a", 0, false, 72, Err((8, 0)), b"", 0),
        (b"a", 0, false, 73, Ok(()), a, 73),
        (b"a", 0, false, 74, Ok(()), a, 73),
        (b"a", 0, true, 74, Err((8, 0)), b"", 0),
        (b"a", 0, true, 75, Ok(()), executable, 75),
        (b"a", 1, false, 74, Err((8, 0)), b"", 0),
        (b"a", 1, false, 75, Ok(()), one, 75),
        (b"a", i64::MAX, true, 84, Err((8, 0)), b"", 0),
        (b"a", i64::MAX, true, 85, Ok(()), largest, 85),
        // A bad name that does not fit, and that fits.
        (b"/", 0, false, 72, Err((8, 0)), b"", 0),
        (b"/", 0, false, 73, Err((16, 4)), b"", 0),
        (b"\xFF", 0, false, 72, Err((8, 0)), b"", 0),
        (b"\xFF", 0, false, 73, Err((15, 4)), b"", 0),
        (b"", 0, false, 71, Err((8, 0)), b"", 0),
        (b"", 0, false, 72, Err((16, 4)), b"", 0),
    ];
    for (name, size, executable, len, answer, bytes, count) in rows {
        let mut buffer = filled(rt.alloc(), &[b""], len)?;
        let mut files = started(buffer.as_slice())?;
        let node = FileNode {
            digest: digest(size)?,
            executable,
        };
        assert_eq!(rt; told(files.add(buffer.as_mut_slice(), name, &node)), answer);
        assert_eq!(rt;
            buffer.as_slice(),
            filled(rt.alloc(), &[bytes], len)?.as_slice()
        );
        check_end(&rt, files.directories().links(), buffer.as_slice(), count)?;
    }
    Ok(())
}

// The same of directories.
#[test]
fn room_for_directories(rt: HostRuntime) -> Result<(), Fail> {
    let a = b"\x12\x47\x0A\x01a\x12\x42\x0A\x40#";
    let larger = b"\x12\x4A\x0A\x01a\x12\x45\x0A\x40#\x10\x80\x01";
    let rows: [(&[u8], i64, usize, Answer, &[u8], usize); 6] = [
        (b"a", 0, 72, Err((8, 0)), b"", 0),
        (b"a", 0, 73, Ok(()), a, 73),
        (b"a", 128, 75, Err((8, 0)), b"", 0),
        (b"a", 128, 76, Ok(()), larger, 76),
        (b".", 0, 72, Err((8, 0)), b"", 0),
        (b".", 0, 73, Err((16, 4)), b"", 0),
    ];
    for (name, size, len, answer, bytes, count) in rows {
        let mut buffer = filled(rt.alloc(), &[b""], len)?;
        let mut directories = started(buffer.as_slice())?.directories();
        let node = DirectoryNode {
            digest: digest(size)?,
        };
        assert_eq!(rt;
            told(directories.add(buffer.as_mut_slice(), name, &node)),
            answer
        );
        assert_eq!(rt;
            buffer.as_slice(),
            filled(rt.alloc(), &[bytes], len)?.as_slice()
        );
        check_end(&rt, directories.links(), buffer.as_slice(), count)?;
    }
    Ok(())
}

// The same of links, by their name and target. The longest has a message of 4357 bytes, whose length is 85 22.
#[test]
fn room_for_links(rt: HostRuntime) -> Result<(), Fail> {
    let longest = filled(
        rt.alloc(),
        &[
            b"\x1A\x85\x22\x0A\xFF\x01",
            &[b'n'; 255],
            b"\x12\x80\x20",
            &[b't'; 4096],
        ],
        0,
    )?;
    let b = b"\x1A\x06\x0A\x01b\x12\x01a";
    let rows: [(&[u8], &[u8], usize, Answer, &[u8], usize); 11] = [
        (b"b", b"a", 0, Err((8, 0)), b"", 0),
        (b"b", b"a", 7, Err((8, 0)), b"", 0),
        (b"b", b"a", 8, Ok(()), b, 8),
        (b"b", b"a", 9, Ok(()), b, 8),
        // A bad name, a bad target.
        (b"", b"", 5, Err((8, 0)), b"", 0),
        (b"", b"", 6, Err((16, 4)), b"", 0),
        (b"b", b"", 6, Err((8, 0)), b"", 0),
        (b"b", b"", 7, Err((19, 7)), b"", 0),
        (b"b", b"\xFF", 7, Err((8, 0)), b"", 0),
        (&[b'n'; 255], &[b't'; 4096], 4359, Err((8, 0)), b"", 0),
        (
            &[b'n'; 255],
            &[b't'; 4096],
            4360,
            Ok(()),
            longest.as_slice(),
            4360,
        ),
    ];
    for (name, target, len, answer, bytes, count) in rows {
        let mut buffer = filled(rt.alloc(), &[b""], len)?;
        let mut links = started(buffer.as_slice())?.directories().links();
        assert_eq!(rt; links.put(buffer.as_mut_slice(), name, target)?, answer);
        assert_eq!(rt;
            buffer.as_slice(),
            filled(rt.alloc(), &[bytes], len)?.as_slice()
        );
        check_end(&rt, links, buffer.as_slice(), count)?;
    }
    Ok(())
}

// A file a in a buffer of 147 bytes: an executable file b takes one too many, also as a lower name, and a file b fits. Then no byte more does.
#[test]
fn room_behind_a_node(rt: HostRuntime) -> Result<(), Fail> {
    let mut buffer = filled(rt.alloc(), &[b""], 147)?;
    let mut files = started(buffer.as_slice())?;
    assert_eq!(rt; files.put(buffer.as_mut_slice(), b"a", b"")?, Ok(()));
    let node = FileNode {
        digest: digest(0)?,
        executable: true,
    };
    for name in [b"b", b"a"] {
        assert_eq!(rt;
            told(files.add(buffer.as_mut_slice(), name, &node)),
            Err((8, 0))
        );
    }
    assert_eq!(rt; files.put(buffer.as_mut_slice(), b"b", b"")?, Ok(()));
    let mut directories = files.directories();
    assert_eq!(rt;
        directories.put(buffer.as_mut_slice(), b"c", b"")?,
        Err((8, 0))
    );
    let mut links = directories.links();
    assert_eq!(rt; links.put(buffer.as_mut_slice(), b"d", b"x")?, Err((8, 0)));
    let expected = b"\x0A\x47\x0A\x01a\x12\x42\x0A\x40#\x0A\x47\x0A\x01b\x12\x42\x0A\x40#";
    assert_eq!(rt;
        buffer.as_slice(),
        filled(rt.alloc(), &[expected], 147)?.as_slice()
    );
    check_end(&rt, links, buffer.as_slice(), 146)
}
