use crate::rows::{numbered, spelled};
use directory::{Part, Sections, has_name, read_part};
use std::test::Fail;
use wire::Span;

// What was read up to a section: the places of the directories and of the links, then where the last name begins and ends. Or a refusal's number and place.
type Answer = Result<[usize; 4], (u8, usize)>;

fn read(bytes: &[u8], part: Part) -> Answer {
    let so_far = read_part(bytes, part).map_err(numbered)?;
    let Sections { directories, links } = so_far.sections;
    let Span { start, end } = so_far.last;
    Ok([directories, links, start, end])
}

#[test]
fn up_to_a_section(rt: HostRuntime) -> Result<(), Fail> {
    // Each row: the bytes, and what is read up to the files, the directories and the links.
    let rows: [(&[u8], Answer, Answer, Answer); 8] = [
        (b"", Ok([0, 0, 0, 0]), Ok([0, 0, 0, 0]), Ok([0, 0, 0, 0])),
        // A file a; two files a and bb; a directory a; a link b.
        (
            b"\x0A\x47\x0A\x01a\x12\x42\x0A\x40#",
            Ok([73, 73, 4, 5]),
            Ok([73, 73, 73, 73]),
            Ok([73, 73, 73, 73]),
        ),
        (
            b"\x0A\x47\x0A\x01a\x12\x42\x0A\x40#\x0A\x48\x0A\x02bb\x12\x42\x0A\x40#",
            Ok([147, 147, 77, 79]),
            Ok([147, 147, 147, 147]),
            Ok([147, 147, 147, 147]),
        ),
        (
            b"\x12\x47\x0A\x01a\x12\x42\x0A\x40#",
            Err((13, 0)),
            Ok([0, 73, 4, 5]),
            Ok([0, 73, 73, 73]),
        ),
        (
            b"\x1A\x06\x0A\x01b\x12\x01a",
            Err((13, 0)),
            Err((13, 0)),
            Ok([0, 0, 4, 5]),
        ),
        // A file a and a directory b, then also a link c.
        (
            b"\x0A\x47\x0A\x01a\x12\x42\x0A\x40#\x12\x47\x0A\x01b\x12\x42\x0A\x40#",
            Err((13, 73)),
            Ok([73, 146, 77, 78]),
            Ok([73, 146, 146, 146]),
        ),
        (
            b"\x0A\x47\x0A\x01a\x12\x42\x0A\x40#\x12\x47\x0A\x01b\x12\x42\x0A\x40#\x1A\x06\x0A\x01c\x12\x01a",
            Err((13, 73)),
            Err((13, 146)),
            Ok([73, 146, 150, 151]),
        ),
        // A file and a directory with no name: up to the files, its tag decides.
        (
            b"\x0A\x47\x0A\x01a\x12\x42\x0A\x40#\x12\x00",
            Err((13, 73)),
            Err((13, 75)),
            Err((13, 75)),
        ),
    ];
    for (row, files, directories, links) in rows {
        let bytes = spelled(rt.alloc(), &[row])?;
        assert_eq!(rt; read(bytes.as_slice(), Part::Files), files);
        assert_eq!(rt; read(bytes.as_slice(), Part::Directories), directories);
        assert_eq!(rt; read(bytes.as_slice(), Part::Links), links);
    }
    Ok(())
}

// Files a and c up to 146, directories b and d up to 292.
#[test]
fn names_in_a_region(rt: HostRuntime) -> Result<(), Fail> {
    let files = b"\x0A\x47\x0A\x01a\x12\x42\x0A\x40#\x0A\x47\x0A\x01c\x12\x42\x0A\x40#";
    let directories = b"\x12\x47\x0A\x01b\x12\x42\x0A\x40#\x12\x47\x0A\x01d\x12\x42\x0A\x40#";
    let bytes = spelled(rt.alloc(), &[files, directories])?;
    let rows: [(usize, usize, &[u8], bool); 11] = [
        (0, 146, b"a", true),
        (0, 146, b"c", true),
        (0, 146, b"b", false),
        (0, 146, b"", false),
        (0, 146, b"cc", false),
        (73, 146, b"a", false),
        (0, 73, b"c", false),
        (146, 292, b"b", true),
        (146, 292, b"d", true),
        (146, 292, b"a", false),
        (146, 146, b"b", false),
    ];
    for (start, end, name, expected) in rows {
        assert_eq!(rt;
            has_name(bytes.as_slice(), Span { start, end }, name),
            expected
        );
    }
    Ok(())
}
