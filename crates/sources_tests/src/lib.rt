// The verifying source over one that may lie.
#![tactic(auto)]

mod listed;

pub use listed::Listed;
use sources::Source;

#[cfg(test)]
mod tests {
    use crate::listed::Listed;
    use digest::Digest;
    use sources::{Source, Verifying};
    use std::test::Fail;

    const ABC: &[u8] = b"ba7816bf8f01cfea414140de5dae2223b00361a396177a9cb410ff61f20015ad";

    const NONE: &[u8] = b"e3b0c44298fc1c149afbf4c8996fb92427ae41e4649b934ca495991b7852b855";

    // What is answered when three bytes, listed under a hash, are asked for under another and a size, and a buffer of five afterwards.
    fn fetched(
        listed: &[u8],
        bytes: [u8; 3],
        asked: &[u8],
        size: i64,
        room: usize,
    ) -> Result<(Option<u8>, [u8; 5]), Fail> {
        let under = Digest::from_text(listed, 3)?;
        let digest = Digest::from_text(asked, size)?;
        let mut source = Verifying::new(Listed { under, bytes });
        let mut buffer = [0xAA; 5];
        let answer = source.fetch(&digest, &mut buffer[..room.min(5)]);
        Ok((answer.err().map(|fault| fault.number()), buffer))
    }

    #[test]
    fn answers_and_buffers(rt: HostRuntime) -> Result<(), Fail> {
        let rows: [(&[u8], [u8; 3], &[u8], i64, usize, Option<u8>, [u8; 5]); 7] = [
            (
                ABC,
                *b"abc",
                ABC,
                3,
                5,
                None,
                [0x61, 0x62, 0x63, 0xAA, 0xAA],
            ),
            (
                ABC,
                *b"abc",
                ABC,
                3,
                3,
                None,
                [0x61, 0x62, 0x63, 0xAA, 0xAA],
            ),
            (ABC, *b"abc", ABC, 3, 2, Some(8), [0xAA; 5]),
            (ABC, *b"abd", ABC, 3, 5, Some(11), [0, 0, 0, 0xAA, 0xAA]),
            (NONE, *b"abc", NONE, 3, 5, Some(11), [0, 0, 0, 0xAA, 0xAA]),
            (ABC, *b"abc", NONE, 0, 5, Some(10), [0xAA; 5]),
            (ABC, *b"abc", ABC, 4, 5, Some(10), [0xAA; 5]),
        ];
        for (i, (listed, bytes, asked, size, room, number, after)) in rows.iter().enumerate() {
            assert_eq!(rt;
                fetched(*listed, *bytes, *asked, *size, *room)?,
                (*number, *after),
                "{}",
                i
            );
        }
        Ok(())
    }
}
