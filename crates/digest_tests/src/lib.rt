// Hash texts, sizes and byte strings at their edges. Every expected value comes from outside this repository.
#![tactic(auto)]

#[cfg(test)]
mod tests {
    use digest::Digest;
    use hash::Hash;
    use std::alloc::Global;
    use std::test::Fail;

    const ABC: &str = "ba7816bf8f01cfea414140de5dae2223b00361a396177a9cb410ff61f20015ad";

    // A text that is `ABC` up to the place `at`, and from there on `part`, cut to `len` characters.
    fn varied(heap: Global, at: usize, part: &str, len: usize) -> Result<Vec<u8>, Fail> {
        let mut text = Vec::new(heap);
        for c in ABC.bytes().take(at).chain(part.bytes()).take(len) {
            text.push(c)?;
        }
        Ok(text)
    }

    #[test]
    fn texts_and_sizes_at_their_edges(rt: HostRuntime) -> Result<(), Fail> {
        let rows: [(usize, &str, usize, i64, Option<u8>); 20] = [
            (64, "", 64, 3, None),
            (64, "", 63, 3, Some(2)),
            (64, "0", 65, 3, Some(2)),
            (64, "", 0, 3, Some(2)),
            (63, "/", 64, 3, Some(2)),
            (63, "0", 64, 3, None),
            (63, "9", 64, 3, None),
            (63, ":", 64, 3, Some(2)),
            (63, "`", 64, 3, Some(2)),
            (63, "a", 64, 3, None),
            (63, "f", 64, 3, None),
            (63, "g", 64, 3, Some(2)),
            (63, "A", 64, 3, Some(2)),
            (63, "F", 64, 3, Some(2)),
            (62, "é", 64, 3, Some(2)),
            (
                0,
                "BA7816BF8F01CFEA414140DE5DAE2223B00361A396177A9CB410FF61F20015AD",
                64,
                3,
                Some(2),
            ),
            (64, "", 64, 0, None),
            (64, "", 64, 9_223_372_036_854_775_807, None),
            (64, "", 64, -1, Some(3)),
            (64, "", 63, -1, Some(2)),
        ];
        for (at, part, len, size, expected) in rows {
            let text = varied(rt.alloc(), at, part, len)?;
            let refused = Digest::from_text(text.as_slice(), size).err();
            assert_eq!(rt; refused.map(|fault| fault.number()), expected, "{}", part);
        }
        Ok(())
    }

    #[test]
    fn the_text_of_a_hash_is_the_text_it_came_from(rt: HostRuntime) -> Result<(), Fail> {
        let hash = Hash::from_text(ABC.as_bytes())?;
        assert!(rt;
            hash.words
                == [
                    0xba7816bf, 0x8f01cfea, 0x414140de, 0x5dae2223, 0xb00361a3, 0x96177a9c,
                    0xb410ff61, 0xf20015ad,
                ]
        );
        assert!(rt; hash == Hash::from_bytes(&hash.to_bytes()));
        assert_eq!(rt; hash.to_bytes()[0], 0xba);
        assert_eq!(rt; hash.to_bytes()[31], 0xad);
        let text = hash.to_text();
        assert!(rt; &text[0..64] == ABC.as_bytes());
        let printed = format!(in rt.alloc(); "{hash}")?;
        assert!(rt; printed.as_str() == ABC);
        Ok(())
    }

    // What a digest prints, or its refusal's number.
    fn printed(heap: Global, bytes: &[u8]) -> Result<String, Fail> {
        match Digest::of(bytes) {
            Ok(digest) => Ok(format!(in heap; "{digest}")?),
            Err(fault) => {
                let n = fault.number();
                Ok(format!(in heap; "refused {n}")?)
            }
        }
    }

    #[test]
    fn byte_strings_up_to_the_limit(rt: HostRuntime) -> Result<(), Fail> {
        let heap = rt.alloc();
        let empty = "e3b0c44298fc1c149afbf4c8996fb92427ae41e4649b934ca495991b7852b855 0";
        assert!(rt; printed(heap, b"")?.as_str() == empty);
        let abc = "ba7816bf8f01cfea414140de5dae2223b00361a396177a9cb410ff61f20015ad 3";
        assert!(rt; printed(heap, b"abc")?.as_str() == abc);
        let mut zeros = vec![in heap; 0u8; 16_777_216]?;
        let full = "080acf35a507ac9849cfcba47dc2ad83e01b75663a516279c8b9d243b719643e 16777216";
        assert!(rt; printed(heap, zeros.as_slice())?.as_str() == full);
        zeros.push(0)?;
        assert!(rt; printed(heap, zeros.as_slice())?.as_str() == "refused 5");
        Ok(())
    }

    #[test]
    fn digests_are_equal_when_hash_and_size_are(rt: HostRuntime) -> Result<(), Fail> {
        let other = varied(rt.alloc(), 63, "e", 64)?;
        let rows: [(&[u8], i64, bool); 4] = [
            (ABC.as_bytes(), 3, true),
            (ABC.as_bytes(), 4, false),
            (other.as_slice(), 3, false),
            (other.as_slice(), 4, false),
        ];
        let abc = Digest::of(b"abc")?;
        for (text, size, expected) in rows {
            let digest = Digest::from_text(text, size)?;
            assert_eq!(rt; digest == abc, expected);
        }
        Ok(())
    }
}
