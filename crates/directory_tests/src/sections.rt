use crate::rows::{check_accepted, check_refused, refusal};
use directory::read_directory;
use std::test::Fail;

#[test]
fn samples(rt: HostRuntime) -> Result<(), Fail> {
    check_accepted(
        &rt,
        rt.alloc(),
        &[
            (b"", 0, 0, 0),
            (b"\x1A\x06\x0A\x01b\x12\x01a", 8, 0, 0),
            (b"\x0A\x47\x0A\x01a\x12\x42\x0A\x40#", 73, 73, 73),
            (b"\x0A\x49\x0A\x01a\x12\x42\x0A\x40#\x20\x01", 75, 75, 75),
        ],
    )?;
    check_refused(
        &rt,
        rt.alloc(),
        b"",
        &[
            (
                b"\x1A\x06\x0A\x01b\x12\x01a\x1A\x06\x0A\x01a\x12\x01a",
                17,
                12,
            ),
            (b"\x1A\x04\x0A\x02..", 16, 4),
            (b"\x1A\x03\x0A\x01b", 13, 5),
            (b"\x2A\x00", 13, 0),
            (b"\x0A\x49\x0A\x01a\x12\x42\x0A\x40#\x20\x00", 13, 74),
        ],
    )
}

#[test]
fn tags_and_lengths(rt: HostRuntime) -> Result<(), Fail> {
    check_refused(
        &rt,
        rt.alloc(),
        b"",
        &[
            // Another tag.
            (b"\x00", 13, 0),
            (b"\x08\x01", 13, 0),
            (b"\x22\x00", 13, 0),
            (b"\x8A\x00", 13, 0),
            (b"\x1A\x06\x0A\x01b\x12\x01a\x22\x00", 13, 8),
            (b"\x0A\x47\x0A\x01a\x12\x42\x0A\x40#\x2A\x00", 13, 73),
            // A file behind a directory, a file and a directory behind a link.
            (
                b"\x12\x47\x0A\x01a\x12\x42\x0A\x40#\x0A\x47\x0A\x01b\x12\x42\x0A\x40#",
                13,
                73,
            ),
            (
                b"\x1A\x06\x0A\x01a\x12\x01b\x0A\x47\x0A\x01b\x12\x42\x0A\x40#",
                13,
                8,
            ),
            (
                b"\x1A\x06\x0A\x01a\x12\x01b\x12\x47\x0A\x01b\x12\x42\x0A\x40#",
                13,
                8,
            ),
            // A length that is not there, cut off, not shortest, of ten bytes.
            (b"\x0A", 12, 1),
            (b"\x12", 12, 1),
            (b"\x1A", 12, 1),
            (b"\x1A\x80", 12, 1),
            (b"\x1A\x80\x00", 12, 1),
            (b"\x1A\x86\x00\x0A\x01b\x12\x01a", 12, 1),
            (b"\x0A\xC7\x00\x0A\x01a\x12\x42\x0A\x40#", 12, 1),
            (b"\x12\xC7\x00\x0A\x01a\x12\x42\x0A\x40#", 12, 1),
            (b"\x1A\xFF\xFF\xFF\xFF\xFF\xFF\xFF\xFF\xFF\x01", 12, 1),
            // A length that passes the end, by one and by much.
            (b"\x0A\x48\x0A\x01a\x12\x42\x0A\x40#", 12, 1),
            (b"\x12\x48\x0A\x01a\x12\x42\x0A\x40#", 12, 1),
            (b"\x1A\x07\x0A\x01b\x12\x01a", 12, 1),
            (b"\x1A\xFF\xFF\xFF\xFF\xFF\xFF\xFF\xFF\x7F", 12, 1),
            (
                b"\x1A\x06\x0A\x01a\x12\x01a\x1A\x07\x0A\x01b\x12\x01a",
                12,
                9,
            ),
            (b"\x0A\x47\x0A\x01a\x12\x42\x0A\x40#\x12\xC7\x00", 12, 74),
        ],
    )
}

// 4096 links of 4096 bytes each: message 4093 bytes, name 2, target 4086.
#[test]
fn as_many_bytes_as_may_be(rt: HostRuntime) -> Result<(), Fail> {
    let mut bytes = Vec::new(rt.alloc());
    for i in 0..64u8 {
        for j in 0..64u8 {
            let name = [0x30 + i, 0x30 + j];
            bytes.extend_from_slice(b"\x1A\xFD\x1F\x0A\x02")?;
            bytes.extend_from_slice(&name)?;
            bytes.extend_from_slice(b"\x12\xF6\x1F")?;
            bytes.extend_from_slice(&[b't'; 4086])?;
        }
    }
    assert_eq!(rt; bytes.len(), 16_777_216);
    assert!(rt; read_directory(bytes.as_slice()).is_ok());
    bytes.push(0)?;
    assert_eq!(rt; refusal(bytes.as_slice()), Some((5, 0)));
    Ok(())
}

#[test]
fn too_many_bytes(rt: HostRuntime) -> Result<(), Fail> {
    let mut zeros = vec![in rt.alloc(); 0u8; 16_777_216]?;
    assert_eq!(rt; refusal(zeros.as_slice()), Some((13, 0)));
    zeros.push(0)?;
    assert_eq!(rt; refusal(zeros.as_slice()), Some((5, 0)));
    Ok(())
}
