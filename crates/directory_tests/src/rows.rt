use directory::read_directory;
use std::alloc::Global;
use std::process::Abort;
use std::test::Fail;
use wire::ReadFault;

const EMPTY: &[u8] = b"e3b0c44298fc1c149afbf4c8996fb92427ae41e4649b934ca495991b7852b855";

const CUT: &[u8] = b"e3b0c44298fc1c149afbf4c8996fb92427ae41e4649b934ca495991b7852b85";

// The tests of `writer` spell bytes alike: one function for both would stand in a library, with a contract, and be no plainer.
// The parts one behind the other, where `#` stands for the 64 characters of the hash text of no bytes, and `%` for its first 63.
pub fn spelled(heap: Global, parts: &[&[u8]]) -> Result<Vec<u8>, Fail> {
    let mut bytes = Vec::new(heap);
    for part in parts {
        for b in *part {
            match *b {
                b'#' => bytes.extend_from_slice(EMPTY)?,
                b'%' => bytes.extend_from_slice(CUT)?,
                other => bytes.push(other)?,
            }
        }
    }
    Ok(bytes)
}

// The number and the place of a refusal. Each crate of tests stands alone.
pub fn numbered(fault: ReadFault) -> (u8, usize) {
    (fault.case.number(), fault.place)
}

// That of a Directory's bytes, if they are refused.
pub fn refusal(bytes: &[u8]) -> Option<(u8, usize)> {
    read_directory(bytes).err().map(numbered)
}

// Each row, with some bytes before it, is refused with a number at a place.
pub fn check_refused<'a>(
    rt: &impl Abort,
    heap: Global,
    before: &'a [u8],
    rows: &[(&'a [u8], u8, usize)],
) -> Result<(), Fail> {
    for (i, (row, number, place)) in rows.iter().enumerate() {
        let bytes = spelled(heap, &[before, *row])?;
        assert_eq!(rt; refusal(bytes.as_slice()), Some((*number, *place)), "{}", i);
    }
    Ok(())
}

// Each row is accepted, with so many bytes, and with the directories and the links at two places.
pub fn check_accepted(
    rt: &impl Abort,
    heap: Global,
    rows: &[(&[u8], usize, usize, usize)],
) -> Result<(), Fail> {
    for (i, (row, len, directories, links)) in rows.iter().enumerate() {
        let bytes = spelled(heap, &[*row])?;
        let sections = read_directory(bytes.as_slice())?;
        assert_eq!(rt; bytes.len(), *len, "{}", i);
        assert_eq!(rt; sections.directories, *directories, "{}", i);
        assert_eq!(rt; sections.links, *links, "{}", i);
    }
    Ok(())
}
