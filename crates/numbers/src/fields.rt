// Numbers among bytes, low byte first: unsigned, and signed in two's complement.
ghost use Rattle.std.specs.Prelude.{◌≡◌, ◌++◌, take, drop, replicate, List, ℕ};
ghost use Rattle.numbers.specs.Fields.{number_at, signed_at};

// A number that takes as many bytes as its type has; bytes past the end are 0.
pub trait Number: Sized {
    ghost number: { List ℕ → (place : ℕ) → Self };

    fn at(bytes: &[u8], place: usize) -> Self
        ensures { result ≡ number bytes.now place };
}

impl Number for u8 {
    ghost number = { number_at 1 };

    fn at(bytes: &[u8], place: usize) -> u8 {
        u8::from_le_bytes(bytes_at(bytes, place))
    }
}

impl Number for u16 {
    ghost number = { number_at 2 };

    fn at(bytes: &[u8], place: usize) -> u16 {
        u16::from_le_bytes(bytes_at(bytes, place))
    }
}

impl Number for u32 {
    ghost number = { number_at 4 };

    fn at(bytes: &[u8], place: usize) -> u32 {
        u32::from_le_bytes(bytes_at(bytes, place))
    }
}

impl Number for u64 {
    ghost number = { number_at 8 };

    fn at(bytes: &[u8], place: usize) -> u64 {
        u64::from_le_bytes(bytes_at(bytes, place))
    }
}

impl Number for i32 {
    ghost number = { signed_at 4 };

    fn at(bytes: &[u8], place: usize) -> i32 {
        u32::at(bytes, place).cast_signed()
    }
}

impl Number for i64 {
    ghost number = { signed_at 8 };

    fn at(bytes: &[u8], place: usize) -> i64 {
        u64::at(bytes, place).cast_signed()
    }
}

// The bytes from a place on, and zeros for those past the end.
fn bytes_at<const SIZE: usize>(bytes: &[u8], place: usize) -> [u8; SIZE]
    ensures { result ≡ take SIZE (drop place bytes.now ++ replicate SIZE 0) }
{
    let rest = &bytes[place.min(bytes.len())..];
    // all of them are there: one load
    if let Some(whole) = rest.first_chunk() {
        return *whole;
    }
    let mut padded = [0; SIZE];
    // each by itself: a copy of a length that the compiler doesn't know is a call of `memcpy`
    for i in 0..SIZE {
        if i < rest.len() {
            padded[i] = rest[i];
        }
    }
    padded
}
