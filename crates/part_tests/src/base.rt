//! Texts by number beside a plain program, and hashes under keys.
use std::alloc::Global;
use std::hash::{BuildHasher, BuildHasherDefault, FoldHasher};
use std::test::Fail;
use xq_base::{HashKeys, Pool, TextId};

/// Texts of which all have this hash where its seed is the known one of `FoldHasher`: the first 16
/// bytes bring the hash to the state that the next eight spell, and so make any end count for
/// nothing.
const SAME: u64 = 0x1b47_d0c2_972b_b490;

#[test]
fn texts_with_one_hash_under_a_known_seed_have_others(rt: HostRuntime) -> Result<(), Fail> {
    let alloc = rt.alloc();
    let known = BuildHasherDefault::<FoldHasher>::new();
    let keyed = HashKeys::new(1, 2);
    let mut hashes = Vec::new(alloc);
    for number in 10_000_000..10_000_256 {
        let text = format!(in alloc; "textwith00138165loRQQlCV{}", number)?;
        assert_eq!(rt; known.hash_one(text.as_str()), SAME);
        hashes.push(keyed.hash_one(text.as_str()))?;
    }
    hashes.sort_unstable();
    hashes.dedup();
    assert_eq!(rt; hashes.len(), 256);
    Ok(())
}

/// The plain program: the place of a text among those that were kept, found by a scan.
fn scan(kept: &mut Vec<String>, alloc: Global, text: &str) -> Result<usize, Fail> {
    for at in 0..kept.len() {
        if kept[at].as_str() == text {
            return Ok(at);
        }
    }
    kept.push(String::from_str(alloc, text)?)?;
    Ok(kept.len() - 1)
}

#[test]
fn numbers_and_texts_are_those_of_a_scan(rt: HostRuntime) -> Result<(), Fail> {
    let alloc = rt.alloc();
    let mut kept = Vec::new(alloc);
    kept.push(String::new(alloc))?;
    let mut pool = Pool::new(alloc, HashKeys::new(1, 2));
    for text in ["", "a", "b", "a", "", "ab", "\u{e9}", "b", "\u{e9}a", "ab"] {
        let wanted = scan(&mut kept, alloc, text)?;
        let given = pool.intern(text);
        assert_eq!(rt; given, Ok(TextId(wanted as u64)), "at {text}");
    }
    assert_eq!(rt; pool.text(TextId(0)), "");
    Ok(())
}
