use crate::rows::{check_end, digest, filled, started, told};
use directory::{Kind, find_node, read_directory};
use nodes::{DirectoryNode, FileNode};
use std::process::Abort;
use std::test::Fail;

// What a node is: a file's size and mark, a directory's size, or where a link's target begins and ends.
#[derive(Clone, Copy, Debug, PartialEq, Eq)]
enum Told {
    File(u64, bool),
    Directory(u64),
    Link(usize, usize),
}

// The hash of a file or a directory must be that of no bytes.
fn told_of(rt: &impl Abort, kind: Kind) -> Result<Told, Fail> {
    match kind {
        Kind::File(node) => {
            assert!(rt; node.digest.hash == digest(0)?.hash);
            Ok(Told::File(node.digest.size, node.executable))
        }
        Kind::Directory(node) => {
            assert!(rt; node.digest.hash == digest(0)?.hash);
            Ok(Told::Directory(node.digest.size))
        }
        Kind::Link(node) => Ok(Told::Link(node.target.start, node.target.end)),
    }
}

// Files a of size 0 at 0 and b of size 300 that is executable at 73, directories A of size 127 at 151 and é of size 0 at 226, links aa to ../b at 300 and z to / at 312, the end at 320.
#[test]
fn whole_directory(rt: HostRuntime) -> Result<(), Fail> {
    let bytes =
        b"\x0A\x47\x0A\x01a\x12\x42\x0A\x40#\x0A\x4C\x0A\x01b\x12\x45\x0A\x40#\x10\xAC\x02\x20\x01\x12\x49\x0A\x01A\x12\x44\x0A\x40#\x10\x7F\x12\x48\x0A\x02\xC3\xA9\x12\x42\x0A\x40#\x1A\x0A\x0A\x02aa\x12\x04../b\x1A\x06\x0A\x01z\x12\x01/";
    let a = FileNode {
        digest: digest(0)?,
        executable: false,
    };
    let b = FileNode {
        digest: digest(300)?,
        executable: true,
    };
    let c = DirectoryNode {
        digest: digest(127)?,
    };
    let d = DirectoryNode { digest: digest(0)? };
    for len in [320, 330] {
        let mut buffer = filled(rt.alloc(), &[b""], len)?;
        let mut files = started(buffer.as_slice())?;
        let answer = files.add(buffer.as_mut_slice(), b"a", &a);
        assert_eq!(rt; told(answer), Ok(()));
        let answer = files.add(buffer.as_mut_slice(), b"b", &b);
        assert_eq!(rt; told(answer), Ok(()));
        let mut directories = files.directories();
        let answer = directories.add(buffer.as_mut_slice(), b"A", &c);
        assert_eq!(rt; told(answer), Ok(()));
        let answer = directories.add(buffer.as_mut_slice(), b"\xC3\xA9", &d);
        assert_eq!(rt; told(answer), Ok(()));
        let mut links = directories.links();
        let answer = links.add(buffer.as_mut_slice(), b"aa", b"../b");
        assert_eq!(rt; told(answer), Ok(()));
        let answer = links.add(buffer.as_mut_slice(), b"z", b"/");
        assert_eq!(rt; told(answer), Ok(()));
        assert_eq!(rt;
            buffer.as_slice(),
            filled(rt.alloc(), &[bytes], len)?.as_slice()
        );
        check_end(&rt, links, buffer.as_slice(), 320)?;
        // What was written is a Directory, and its nodes are found one behind the other.
        buffer.truncate(320);
        let sections = read_directory(buffer.as_slice())?;
        assert_eq!(rt; (sections.directories, sections.links), (151, 300));
        let mut place = 0;
        for (start, end, kind, next) in [
            (4, 5, Told::File(0, false), 73),
            (77, 78, Told::File(300, true), 151),
            (155, 156, Told::Directory(127), 226),
            (230, 232, Told::Directory(0), 300),
            (304, 306, Told::Link(308, 312), 312),
            (316, 317, Told::Link(319, 320), 320),
        ] {
            let found = find_node(buffer.as_slice(), place)?;
            assert_eq!(rt; (found.name.start, found.name.end), (start, end));
            assert_eq!(rt; told_of(&rt, found.kind)?, kind);
            assert_eq!(rt; found.end, next);
            place = next;
        }
        assert!(rt; find_node(buffer.as_slice(), place).is_err());
    }
    Ok(())
}

#[test]
fn empty_directory(rt: HostRuntime) -> Result<(), Fail> {
    for len in [0, 1, 100] {
        let buffer = filled(rt.alloc(), &[b""], len)?;
        let links = started(buffer.as_slice())?.directories().links();
        check_end(&rt, links, buffer.as_slice(), 0)?;
        assert_eq!(rt;
            buffer.as_slice(),
            filled(rt.alloc(), &[b""], len)?.as_slice()
        );
    }
    Ok(())
}
