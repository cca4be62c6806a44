// A part of a slice, the sum of its bytes, zeros from a place on.
ghost use Rattle.std.specs.Prelude.{◌≡◌, ◌%◌};
ghost use Rattle.laws.specs.Sums.{total};
ghost use Rattle.numbers.specs.Slices.{IsPart, cleared_from};

// The bytes from start on, count of them or as many as there are: the caller's own.
pub fn part(bytes: &[u8], start: usize, count: usize) -> &[u8]
    ensures { IsPart bytes.entry result start count }
{
    let rest = &bytes[start.min(bytes.len())..];
    &rest[..count.min(rest.len())]
}

// The sum of the bytes modulo 65,536.
pub fn byte_sum(bytes: &[u8]) -> u16
    ensures { result ≡ total bytes.now % 65536 }
{
    bytes
        .iter()
        .fold(0, |sum: u16, byte| sum.wrapping_add(u16::from(*byte)))
}

// Zeros from start on.
pub fn clear_from(bytes: &mut [u8], start: usize)
    ensures { bytes.new ≡ cleared_from start bytes.old }
{
    let end = bytes.len();
    bytes[start.min(end)..].fill(0);
}
