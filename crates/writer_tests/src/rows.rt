use digest::Digest;
use nodes::{DirectoryNode, FileNode};
use std::alloc::Global;
use std::process::Abort;
use std::test::Fail;
use writer::{Directories, Files, Links, WriterFault};

const EMPTY: &[u8] = b"e3b0c44298fc1c149afbf4c8996fb92427ae41e4649b934ca495991b7852b855";

// The hash of no bytes, with a size.
pub fn digest(size: i64) -> Result<Digest, Fail> {
    Ok(Digest::from_text(EMPTY, size)?)
}

// The tests of `directory` spell bytes alike: one function for both would stand in a library, with a contract, and be no plainer.
// A buffer: the parts one behind the other, where `#` stands for the 64 characters of the hash text of no bytes, and then AA up to a length.
pub fn filled(heap: Global, parts: &[&[u8]], len: usize) -> Result<Vec<u8>, Fail> {
    let mut bytes = Vec::new(heap);
    for part in parts {
        for b in *part {
            match *b {
                b'#' => bytes.extend_from_slice(EMPTY)?,
                other => bytes.push(other)?,
            }
        }
    }
    if bytes.len() < len {
        bytes.resize(len, 0xAA)?;
    }
    Ok(bytes)
}

// What adding answers, a refusal by its number and place.
pub type Answer = Result<(), (u8, usize)>;

pub fn told(answer: Result<(), WriterFault>) -> Answer {
    answer.map_err(|fault| (fault.number(), fault.place()))
}

// A writer that starts.
pub fn started(buffer: &[u8]) -> Result<Files, Fail> {
    Files::start(buffer).map_err(|fault| Fail::new(fault.number()))
}

// The end of a Directory of so many bytes.
pub fn check_end(rt: &impl Abort, links: Links, buffer: &[u8], count: usize) -> Result<(), Fail> {
    let found = links
        .end(buffer)
        .map_err(|(_, fault)| Fail::new(fault.number()))?;
    assert_eq!(rt; found, count);
    Ok(())
}

// An end that is refused, and the writer that it gives back.
pub fn check_no_end(
    rt: &impl Abort,
    links: Links,
    buffer: &[u8],
    number: u8,
    place: usize,
) -> Result<Links, Fail> {
    let (links, fault) = links.end(buffer).err().ok_or("it ended")?;
    assert_eq!(rt; (fault.number(), fault.place()), (number, place));
    Ok(links)
}

// A writer in one of its parts.
pub trait Puts {
    // Adds a node of no bytes, or a link with a target.
    fn put(&mut self, buffer: &mut [u8], name: &[u8], target: &[u8]) -> Result<Answer, Fail>;
}

impl Puts for Files {
    fn put(&mut self, buffer: &mut [u8], name: &[u8], _target: &[u8]) -> Result<Answer, Fail> {
        let node = FileNode {
            digest: digest(0)?,
            executable: false,
        };
        Ok(told(self.add(buffer, name, &node)))
    }
}

impl Puts for Directories {
    fn put(&mut self, buffer: &mut [u8], name: &[u8], _target: &[u8]) -> Result<Answer, Fail> {
        let node = DirectoryNode { digest: digest(0)? };
        Ok(told(self.add(buffer, name, &node)))
    }
}

impl Puts for Links {
    fn put(&mut self, buffer: &mut [u8], name: &[u8], target: &[u8]) -> Result<Answer, Fail> {
        Ok(told(self.add(buffer, name, target)))
    }
}

// Each row, a name and a target, is refused with a number at a place, and leaves every byte.
pub fn check_refused<P: Puts>(
    rt: &impl Abort,
    part: &mut P,
    buffer: &mut Vec<u8>,
    rows: &[(&[u8], &[u8], u8, usize)],
) -> Result<(), Fail> {
    let before = buffer.clone()?;
    for (i, (name, target, number, place)) in rows.iter().enumerate() {
        let answer = part.put(buffer.as_mut_slice(), *name, *target)?;
        assert_eq!(rt; answer, Err((*number, *place)), "{}", i);
        assert_eq!(rt; buffer.as_slice(), before.as_slice(), "{}", i);
    }
    Ok(())
}

// Each row, other bytes so far in a buffer of a length, is refused with a number at a place, whatever the node.
pub fn check_so_far<P: Puts>(
    rt: &impl Abort,
    heap: Global,
    part: &mut P,
    len: usize,
    rows: &[(&[u8], u8, usize)],
) -> Result<(), Fail> {
    for (bytes, number, place) in rows {
        let mut buffer = filled(heap, &[*bytes], len)?;
        check_refused(
            rt,
            part,
            &mut buffer,
            &[
                (b"z", b"x", *number, *place),
                (b".", b"", *number, *place),
                (b"\xFF", b"\xFF", *number, *place),
            ],
        )?;
    }
    Ok(())
}
