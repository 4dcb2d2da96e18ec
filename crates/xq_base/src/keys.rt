//! Keys of the hash by which texts are found.

use std::fmt::{self, Debug, Formatter};
use std::hash::{BuildHasher, DefaultHasher, Hasher};

/// The two keys of the hash by which a pool finds its texts (SipHash-1-3, whose first words are the
/// keys). They decide how long a search takes and no answer: who chooses the texts mustn't know them.
#[derive(Clone, Copy)]
pub struct HashKeys {
    start: DefaultHasher,
}

impl HashKeys {
    /// The keys of two numbers.
    pub fn new(first: u64, second: u64) -> HashKeys {
        let mut start = DefaultHasher::new();
        start.write_u64(first);
        start.write_u64(second);
        HashKeys { start }
    }
}

impl BuildHasher for HashKeys {
    type Hasher = DefaultHasher;

    ghost build_hasher = { λ keys. keys.start };

    fn build_hasher(&self) -> DefaultHasher {
        self.start
    }
}

impl Debug for HashKeys {
    fn fmt<W: fmt::Write>(&self, f: &mut Formatter<W>) -> fmt::Result {
        f.debug_struct("HashKeys").finish_non_exhaustive()
    }
}
