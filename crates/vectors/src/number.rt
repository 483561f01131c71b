// Little-endian numbers in a record or a pool.
ghost use Rattle.std.specs.Prelude.{◌≡◌, ◌≤◌, ◌<◌, ◌^◌};
ghost use Rattle.vectors.specs.Number.{number_at};

use seq::byte_at;

// The number that N bytes make from a place on. A byte past the end reads 0, which from_le_bytes would need an array for.
pub(crate) fn number_at<const N: usize>(bytes: &[u8], at: usize) -> usize
    requires { N ≤ 8 }
    ensures value { result ≡ number_at N bytes.now at }
    ensures small { result < 256 ^ N }
{
    let mut number: usize = 0;
    for i in (0..N).rev() {
        number = 256 * number + byte_at(bytes, at.saturating_add(i)) as usize;
    }
    number
}
