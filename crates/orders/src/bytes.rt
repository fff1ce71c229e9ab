// Numbers in bytes, the highest byte first.
ghost use Rattle.std.specs.Prelude.{◌≡◌, ◌++◌, take, drop};
ghost use Rattle.orders.specs.Bytes.{bytes, number};

pub(crate) fn two_bytes(n: u16) -> [u8; 2]
    ensures { result ≡ bytes 2 n }
{
    n.to_be_bytes()
}

// The number in the first two bytes.
pub(crate) fn first_two(b: &[u8; 12]) -> u16
    ensures { result ≡ number (take 2 b.now) }
{
    u16::from_be_bytes(*b.first_chunk().unwrap())
}

// The number in the last eight bytes.
pub(crate) fn last_eight(b: &[u8; 12]) -> u64
    ensures { result ≡ number (drop 4 b.now) }
{
    u64::from_be_bytes(*b.last_chunk().unwrap())
}

// Four bytes, and a number in eight.
pub(crate) fn joined(front: [u8; 4], n: u64) -> [u8; 12]
    ensures { result ≡ front ++ bytes 8 n }
{
    let mut all = [0; 12];
    all[..4].copy_from_slice(&front);
    all[4..].copy_from_slice(&n.to_be_bytes());
    all
}
