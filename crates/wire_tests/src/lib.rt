// Texts, numbers, fields and nodes at their edges. Places and values were worked out by hand from the rules.
#![tactic(auto)]

#[cfg(test)]
use wire::ReadFault;

// A refusal's number and place. Each crate of tests stands alone, with its own of this and of the hash text below.
#[cfg(test)]
fn told(fault: ReadFault) -> (u8, usize) {
    (fault.case.number(), fault.place)
}

#[cfg(test)]
mod of_texts {
    use texts::{is_name, is_target, is_text, precedes};

    #[test]
    fn well_formed_and_ill_formed_sequences(rt: HostRuntime) {
        let rows: [(&[u8], bool); 14] = [
            (b"", true),
            (b"plain", true),
            (b"\x4D\xD0\xB0\xE4\xBA\x8C\xF0\x90\x8C\x82", true),
            (
                b"\x7F\xC2\x80\xDF\xBF\xE0\xA0\x80\xED\x9F\xBF\xEE\x80\x80\xEF\xBF\xBF",
                true,
            ),
            (b"\xF0\x90\x80\x80\xF4\x8F\xBF\xBF", true),
            (b"\xC0\xAF", false),
            (b"\xC1\xBF", false),
            (b"\xE0\x9F\xBF", false),
            (b"\xF0\x8F\xBF\xBF", false),
            (b"\xED\xA0\x80", false),
            (b"\xF4\x90\x80\x80", false),
            (b"\xF5\x80\x80\x80", false),
            (b"a\x80", false),
            (b"\xE1\x80", false),
        ];
        for (bytes, expected) in rows {
            assert_eq!(rt; is_text(bytes), expected);
        }
    }

    #[test]
    fn names_targets_and_order(rt: HostRuntime) {
        let rows: [(&[u8], bool, bool); 9] = [
            (b"", false, false),
            (b".", false, true),
            (b"..", false, true),
            (b"...", true, true),
            (b".a", true, true),
            (b"a/b", false, true),
            (b"a\x00", false, false),
            (&[b'n'; 255], true, true),
            (&[b'n'; 256], false, true),
        ];
        for (text, name, target) in rows {
            assert_eq!(rt; is_name(text), name);
            assert_eq!(rt; is_target(text), target);
        }
        assert_eq!(rt; is_target(&[b't'; 4096]), true);
        assert_eq!(rt; is_target(&[b't'; 4097]), false);
        let pairs: [(&[u8], &[u8], bool); 5] = [
            (b"a", b"b", true),
            (b"b", b"a", false),
            (b"a", b"a", false),
            (b"a", b"a.", true),
            (b"\x7F", b"\xC2\x80", true),
        ];
        for (a, b, expected) in pairs {
            assert_eq!(rt; precedes(a, b), expected);
        }
    }
}

#[cfg(test)]
mod of_wire {
    use super::told;
    use wire::{read_field, read_number, write_field, write_number};

    #[test]
    fn numbers_read(rt: HostRuntime) {
        let rows: [(&[u8], usize, Result<(u64, usize), (u8, usize)>); 11] = [
            (b"\x00", 0, Ok((0, 1))),
            (b"\x7F", 0, Ok((127, 1))),
            (b"\x80\x01", 0, Ok((128, 2))),
            (b"\xAC\x02", 0, Ok((300, 2))),
            (b"\x0A\xAC\x02\x61", 1, Ok((300, 2))),
            (
                b"\xFF\xFF\xFF\xFF\xFF\xFF\xFF\xFF\x7F",
                0,
                Ok((9_223_372_036_854_775_807, 9)),
            ),
            (b"\xFF\xFF\xFF\xFF\xFF\xFF\xFF\xFF\xFF\x01", 0, Err((12, 0))),
            (b"\x80\x00", 0, Err((12, 0))),
            (b"\x80", 0, Err((12, 0))),
            (b"", 0, Err((12, 0))),
            (b"\x05", 7, Err((12, 7))),
        ];
        for (bytes, start, expected) in rows {
            assert!(rt; read_number(bytes, start).map_err(told) == expected);
        }
    }

    #[test]
    fn fields_read(rt: HostRuntime) {
        let rows: [(&[u8], usize, Result<(usize, usize), (u8, usize)>); 8] = [
            (b"\x0A\x02ab", 0, Ok((2, 4))),
            (b"\x0A\x00", 0, Ok((2, 2))),
            (b"xx\x0A\x01a", 2, Ok((4, 5))),
            (b"\x0A\x03ab", 0, Err((12, 1))),
            (b"\x0A\x80\x00", 0, Err((12, 1))),
            (b"\x0A", 0, Err((12, 1))),
            (b"\x12\x00", 0, Err((13, 0))),
            (b"", 0, Err((13, 0))),
        ];
        for (bytes, start, expected) in rows {
            let read = read_field(bytes, start, 0x0A).map(|span| (span.start, span.end));
            assert!(rt; read.map_err(told) == expected);
        }
    }

    #[test]
    fn numbers_and_fields_written(rt: HostRuntime) {
        let mut buffer = [0xEE; 6];
        assert!(rt; write_number(&mut buffer, 1, 300) == Ok(3));
        assert!(rt; buffer == [0xEE, 0xAC, 0x02, 0xEE, 0xEE, 0xEE]);
        assert!(rt; write_number(&mut buffer, 5, 128).is_err());
        assert!(rt; write_field(&mut buffer, 2, 0x12, b"ab") == Ok(6));
        assert!(rt; buffer == [0xEE, 0xAC, 0x12, 0x02, b'a', b'b']);
        assert!(rt; write_field(&mut buffer, 3, 0x12, b"ab").is_err());
        assert!(rt; buffer == [0xEE, 0xAC, 0x12, 0x02, b'a', b'b']);
    }
}

#[cfg(test)]
mod of_nodes {
    use super::told;
    use digest::Digest;
    use nodes::{DirectoryNode, FileNode, LinkNode, NewNode, NodeKind, read_name};
    use std::alloc::Global;
    use std::test::Fail;

    const EMPTY: &[u8] = b"e3b0c44298fc1c149afbf4c8996fb92427ae41e4649b934ca495991b7852b855";

    // The node of a file `a` with the digest of no bytes, its two lengths and what follows the hash text being given.
    fn file_a(heap: Global, lengths: [u8; 2], behind: &[u8]) -> Result<Vec<u8>, Fail> {
        let mut node = Vec::from_slice(
            heap,
            &[
                0x0A, lengths[0], 0x0A, 0x01, b'a', 0x12, lengths[1], 0x0A, 0x40,
            ],
        )?;
        node.extend_from_slice(EMPTY)?;
        node.extend_from_slice(behind)?;
        Ok(node)
    }

    #[test]
    fn names_read(rt: HostRuntime) {
        let rows: [(&[u8], Result<usize, (u8, usize)>); 7] = [
            (b"\x0A\x01b\x12\x01a", Ok(2)),
            (b"\x0A\x02..", Err((16, 2))),
            (b"\x0A\x00", Err((16, 2))),
            (b"\x0A\x01\xFF", Err((15, 2))),
            (b"\x0A\x03a", Err((12, 1))),
            (b"\x12\x01a", Err((13, 0))),
            (b"", Err((13, 0))),
        ];
        for (message, expected) in rows {
            let read = read_name(message, 0).map(|span| span.start);
            assert!(rt; read.map_err(told) == expected);
        }
    }

    #[test]
    fn links_read(rt: HostRuntime) {
        let rows: [(&[u8], Result<usize, (u8, usize)>); 6] = [
            (b"\x0A\x01b\x12\x01a", Ok(5)),
            (b"\x0A\x01b", Err((13, 3))),
            (b"\x0A\x01b\x12\x00", Err((19, 5))),
            (b"\x0A\x01b\x12\x02a\x00", Err((19, 5))),
            (b"\x0A\x01b\x12\x01\x80", Err((15, 5))),
            (b"\x0A\x01b\x12\x01a\x1A", Err((13, 6))),
        ];
        for (message, expected) in rows {
            let read = LinkNode::read_rest(message, 3).map(|link| link.target.start);
            assert!(rt; read.map_err(told) == expected);
        }
    }

    #[test]
    fn files_read(rt: HostRuntime) -> Result<(), Fail> {
        let rows: [([u8; 2], &[u8], Result<bool, (u8, usize)>); 8] = [
            ([0x47, 0x42], b"", Ok(false)),
            ([0x49, 0x42], b"\x20\x01", Ok(true)),
            ([0x49, 0x42], b"\x20\x00", Err((13, 74))),
            ([0x49, 0x42], b"\x20\x02", Err((13, 74))),
            ([0x49, 0x42], b"\x10\x01", Err((13, 73))),
            ([0x49, 0x44], b"\x10\x00", Err((13, 74))),
            ([0x4A, 0x42], b"\x20\x01\x00", Err((13, 75))),
            ([0x48, 0x42], b"\x20", Err((12, 74))),
        ];
        for (lengths, behind, expected) in rows {
            let node = file_a(rt.alloc(), lengths, behind)?;
            match FileNode::read_rest(node.as_slice(), 5) {
                Ok(file) => assert!(rt;
                    expected == Ok(file.executable) && file.digest == Digest::of(b"")?
                ),
                Err(fault) => assert!(rt; expected == Err(told(fault))),
            }
        }
        let mut node = file_a(rt.alloc(), [0x47, 0x42], b"")?;
        node.truncate(72);
        node.push(b'G')?;
        let fault = FileNode::read_rest(node.as_slice(), 5)
            .err()
            .ok_or("a capital letter was read")?;
        assert!(rt; told(fault) == (14, 9));
        Ok(())
    }

    #[test]
    fn nodes_written(rt: HostRuntime) -> Result<(), Fail> {
        let digest = Digest::of(b"")?;
        let mut buffer = [0xEE; 76];
        let file = FileNode {
            digest,
            executable: true,
        };
        assert!(rt; FileNode::write_rest(&file, b"", &mut buffer, 5).ok() == Some(75));
        let node = file_a(rt.alloc(), [0x49, 0x42], b"\x20\x01")?;
        let expected = node.as_slice();
        assert!(rt; expected.len() == 75);
        assert!(rt; buffer[5..75] == expected[5..75] && buffer[75] == 0xEE);
        let mut whole = [0xEE; 76];
        let executable = NewNode {
            name: b"a",
            rest: &file,
            text: b"",
        };
        assert!(rt; executable.write(&mut whole, 0).ok() == Some(75));
        assert!(rt; whole[0..75] == expected[0..75] && whole[75] == 0xEE);
        let plain = FileNode {
            digest,
            executable: false,
        };
        let plain = NewNode {
            name: b"a",
            rest: &plain,
            text: b"",
        };
        assert!(rt; plain.fits(&whole, 3) && !plain.fits(&whole, 4));
        assert!(rt; plain.write(&mut whole, 3).ok() == Some(76));
        assert!(rt; plain.write(&mut whole, 4).is_err());
        let directory = DirectoryNode { digest };
        assert!(rt; DirectoryNode::write_rest(&directory, b"", &mut buffer, 8).ok() == Some(76));
        assert!(rt; buffer[8..76] == expected[5..73]);
        assert!(rt; DirectoryNode::write_rest(&directory, b"", &mut buffer, 9).is_err());
        Ok(())
    }

    #[test]
    fn a_link_read_is_written_again(rt: HostRuntime) -> Result<(), Fail> {
        let message = b"\x0A\x01b\x12\x02..";
        let link: LinkNode = LinkNode::read_rest(message, 3)?;
        let mut buffer = [0; 4];
        assert!(rt; LinkNode::write_rest(&link, message, &mut buffer, 0).ok() == Some(4));
        assert!(rt; buffer == [0x12, 0x02, b'.', b'.']);
        Ok(())
    }
}
