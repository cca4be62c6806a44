// Characters as hexadecimal digits, and the sum of the bytes that they spell.
ghost use Rattle.std.specs.Prelude.{◌≡◌, ◌&&◌, nat_le};
ghost use Rattle.hextext.specs.Record.{digit as digitOf};
ghost use Rattle.hexdigits.specs.Digits.{digits_sum};

fn in_range(character: u8, first: u8, last: u8) -> bool
    ensures { result ≡ (nat_le first character && nat_le character last) }
{
    (first..=last).contains(&character)
}

// The value of a character as a hexadecimal digit, or 16: a number, not an Option, so that the loops over it vectorise. (A `match` over the
// ranges compares more often there.)
pub fn digit(character: u8) -> u8
    ensures { result ≡ digitOf character }
{
    if in_range(character, b'0', b'9') {
        return character - b'0';
    }
    if in_range(character, b'A', b'F') {
        return character - b'A' + 10;
    }
    if in_range(character, b'a', b'f') {
        return character - b'a' + 10;
    }
    16
}

// The sum modulo 256 of the bytes that pairs of digits spell, where the characters are such pairs. They are validated
// after the loop, so that it vectorises.
pub fn digits_sum(characters: &[u8]) -> Option<u8>
    ensures { result ≡ digits_sum characters.now }
{
    if characters.len() % 2 != 0 {
        return None;
    }
    let mut sum: u8 = 0;
    let mut largest: u8 = 0;
    for i in 0..characters.len() / 2 {
        let high = digit(characters[i * 2]);
        let low = digit(characters[i * 2 + 1]);
        sum = sum.wrapping_add(high % 16 * 16 + low % 16);
        largest = largest.max(high.max(low));
    }
    if 16 <= largest {
        return None;
    }
    Some(sum)
}
