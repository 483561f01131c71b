// Digests of all elements of a buffer: two polynomials in them, modulo the largest prime below 2^32. Modulo a power of 2,
// changes at the distances of lanes and registers could cancel.
ghost use Rattle.std.specs.Prelude.{◌≡◌};
ghost use Rattle.vectors.specs.Digest.{more, IsDigest};

use std::fmt;

const PRIME: u64 = 4294967291;

const FIRST_FACTOR: u64 = 2654435761;

const SECOND_FACTOR: u64 = 1597334677;

#[derive(Clone, Copy)]
pub struct Digest {
    pub first: u32,
    pub second: u32,
}

impl Digest {
    fn with(self, element: u32) -> Digest
        ensures { result ≡ more self element }
    {
        Digest {
            first: ((FIRST_FACTOR * self.first as u64 + element as u64) % PRIME) as u32,
            second: ((SECOND_FACTOR * self.second as u64 + element as u64) % PRIME) as u32,
        }
    }

    // The digest of a buffer of bytes, map entries or numbers.
    pub(crate) fn of<T: Copy + Into<u32>>(elements: &[T]) -> Digest
        ensures { IsDigest T.converts elements.now result }
    {
        let mut digest = Digest {
            first: 1,
            second: 1,
        };
        for element in elements {
            digest = digest.with((*element).into());
        }
        digest
    }
}

impl fmt::Display for Digest {
    fn fmt<W: fmt::Write>(&self, f: &mut fmt::Formatter<W>) -> fmt::Result {
        write!(f, "{:08x}{:08x}", self.first, self.second)
    }
}
