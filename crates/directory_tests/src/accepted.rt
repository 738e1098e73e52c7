use crate::rows::{check_accepted, refusal, spelled};
use std::test::Fail;

#[test]
fn edges(rt: HostRuntime) -> Result<(), Fail> {
    check_accepted(
        &rt,
        rt.alloc(),
        &[
            // Links: a and ab, z and é, A and a, ... and .a, a name of the byte 01 and one of 7F.
            (
                b"\x1A\x06\x0A\x01a\x12\x01x\x1A\x07\x0A\x02ab\x12\x01x",
                17,
                0,
                0,
            ),
            (
                b"\x1A\x06\x0A\x01z\x12\x01x\x1A\x07\x0A\x02\xC3\xA9\x12\x01x",
                17,
                0,
                0,
            ),
            (
                b"\x1A\x06\x0A\x01A\x12\x01x\x1A\x06\x0A\x01a\x12\x01x",
                16,
                0,
                0,
            ),
            (
                b"\x1A\x08\x0A\x03...\x12\x01x\x1A\x07\x0A\x02.a\x12\x01x",
                19,
                0,
                0,
            ),
            (
                b"\x1A\x06\x0A\x01\x01\x12\x01x\x1A\x06\x0A\x01\x7F\x12\x01x",
                16,
                0,
                0,
            ),
            // U+E000 and U+10000, in the order of their bytes.
            (
                b"\x1A\x08\x0A\x03\xEE\x80\x80\x12\x01x\x1A\x09\x0A\x04\xF0\x90\x80\x80\x12\x01x",
                21,
                0,
                0,
            ),
            // Targets / and ..
            (
                b"\x1A\x06\x0A\x01a\x12\x01/\x1A\x07\x0A\x01b\x12\x02..",
                17,
                0,
                0,
            ),
            // Sizes 1, 128 and 2^63 - 1, and the last with an executable file.
            (b"\x0A\x49\x0A\x01a\x12\x44\x0A\x40#\x10\x01", 75, 75, 75),
            (b"\x12\x4A\x0A\x01a\x12\x45\x0A\x40#\x10\x80\x01", 76, 0, 76),
            (
                b"\x12\x51\x0A\x01a\x12\x4C\x0A\x40#\x10\xFF\xFF\xFF\xFF\xFF\xFF\xFF\xFF\x7F",
                83,
                0,
                83,
            ),
            (
                b"\x0A\x53\x0A\x01a\x12\x4C\x0A\x40#\x10\xFF\xFF\xFF\xFF\xFF\xFF\xFF\xFF\x7F\x20\x01",
                85,
                85,
                85,
            ),
        ],
    )
}

#[test]
fn sections_together(rt: HostRuntime) -> Result<(), Fail> {
    check_accepted(
        &rt,
        rt.alloc(),
        &[
            // A directory; a file and a link; a directory and a link.
            (b"\x12\x47\x0A\x01a\x12\x42\x0A\x40#", 73, 0, 73),
            (
                b"\x0A\x47\x0A\x01b\x12\x42\x0A\x40#\x1A\x06\x0A\x01a\x12\x01b",
                81,
                73,
                73,
            ),
            (
                b"\x12\x47\x0A\x01b\x12\x42\x0A\x40#\x1A\x06\x0A\x01a\x12\x01b",
                81,
                0,
                73,
            ),
            // A file a and a directory A.
            (
                b"\x0A\x47\x0A\x01a\x12\x42\x0A\x40#\x12\x47\x0A\x01A\x12\x42\x0A\x40#",
                146,
                73,
                146,
            ),
            // A file b, a directory a, a link aa.
            (
                b"\x0A\x47\x0A\x01b\x12\x42\x0A\x40#\x12\x47\x0A\x01a\x12\x42\x0A\x40#\x1A\x07\x0A\x02aa\x12\x01b",
                155,
                73,
                146,
            ),
            // A file ab, a directory a, a link abc.
            (
                b"\x0A\x48\x0A\x02ab\x12\x42\x0A\x40#\x12\x47\x0A\x01a\x12\x42\x0A\x40#\x1A\x08\x0A\x03abc\x12\x01b",
                157,
                74,
                147,
            ),
            // Files b and d, directories a, c and e, links bb and dd.
            (
                b"\x0A\x47\x0A\x01b\x12\x42\x0A\x40#\x0A\x47\x0A\x01d\x12\x42\x0A\x40#\x12\x47\x0A\x01a\x12\x42\x0A\x40#\x12\x47\x0A\x01c\x12\x42\x0A\x40#\x12\x47\x0A\x01e\x12\x42\x0A\x40#\x1A\x07\x0A\x02bb\x12\x01x\x1A\x07\x0A\x02dd\x12\x01x",
                383,
                146,
                365,
            ),
            // Files a and d (executable), directories b and e, links c and f.
            (
                b"\x0A\x47\x0A\x01a\x12\x42\x0A\x40#\x0A\x49\x0A\x01d\x12\x42\x0A\x40#\x20\x01\x12\x47\x0A\x01b\x12\x42\x0A\x40#\x12\x47\x0A\x01e\x12\x42\x0A\x40#\x1A\x06\x0A\x01c\x12\x01x\x1A\x06\x0A\x01f\x12\x01x",
                310,
                148,
                294,
            ),
        ],
    )
}

// Texts of the greatest length, and of one byte more: what stands before, the text, what stands behind, and the refusal.
#[test]
fn long_texts(rt: HostRuntime) -> Result<(), Fail> {
    let rows: [(&[u8], &[u8], &[u8], Option<(u8, usize)>); 9] = [
        // Names: tag 0, length 1, 0A 3, length 4, name from 6 on. A file's message has 326 bytes, a link's 261.
        (
            b"\x0A\xC6\x02\x0A\xFF\x01",
            &[b'n'; 255],
            b"\x12\x42\x0A\x40#",
            None,
        ),
        (
            b"\x12\xC6\x02\x0A\xFF\x01",
            &[b'n'; 255],
            b"\x12\x42\x0A\x40#",
            None,
        ),
        (
            b"\x1A\x85\x02\x0A\xFF\x01",
            &[b'n'; 255],
            b"\x12\x01a",
            None,
        ),
        (
            b"\x0A\xC7\x02\x0A\x80\x02",
            &[b'n'; 256],
            b"\x12\x42\x0A\x40#",
            Some((16, 6)),
        ),
        (
            b"\x12\xC7\x02\x0A\x80\x02",
            &[b'n'; 256],
            b"\x12\x42\x0A\x40#",
            Some((16, 6)),
        ),
        (
            b"\x1A\x86\x02\x0A\x80\x02",
            &[b'n'; 256],
            b"\x12\x01a",
            Some((16, 6)),
        ),
        // Targets: length 1, 0A 3, length 4, name 5, 12 6, length 7, target from 9 on. The message has 4102 bytes.
        (
            b"\x1A\x86\x20\x0A\x01b\x12\x80\x20",
            &[b't'; 4096],
            b"",
            None,
        ),
        (
            b"\x1A\x87\x20\x0A\x01b\x12\x81\x20",
            &[b't'; 4097],
            b"",
            Some((19, 9)),
        ),
        // 4095 characters and the first byte of one that is cut off.
        (
            b"\x1A\x86\x20\x0A\x01b\x12\x80\x20",
            &[b't'; 4095],
            b"\xC3",
            Some((15, 9)),
        ),
    ];
    for (before, text, behind, expected) in rows {
        let bytes = spelled(rt.alloc(), &[before, text, behind])?;
        assert_eq!(rt; refusal(bytes.as_slice()), expected);
    }
    Ok(())
}
