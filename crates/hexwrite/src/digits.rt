// Bytes written as hexadecimal digits.
ghost use Rattle.std.specs.Prelude.{◌≡◌, ◌+◌, ◌*◌, ◌<◌, ◌≤◌, [], ◌∷◌, length};
ghost use Rattle.hextext.specs.Written.{hex_digit, spell};
ghost use Rattle.hexwrite.specs.DigitsLaws.{Digits};
ghost use Rattle.laws.specs.BufferWrites.{WrittenAt};

// The character of a number below 16.
#[tactic(auto, using(crate::specs::DigitsLaws::digit_decimal, crate::specs::DigitsLaws::digit_letter))]
fn hex_digit(value: u8) -> u8
    requires { value < 16 }
    ensures { result ≡ hex_digit value }
{
    if value < 10 { 48 + value } else { 55 + value }
}

// The characters of the numbers below 16: a table, which is quicker for the few bytes of a header.
#[derive(Clone, Copy)]
pub struct DigitTable {
    characters: [u8; 16],
    ghost all: { Digits characters 16 },
}

impl DigitTable {
    pub(crate) fn new() -> DigitTable {
        let mut characters = [0u8; 16];
        for value in 0..16u8 {
            characters[usize::from(value)] = hex_digit(value);
        }
        DigitTable { characters }
    }

    // Writes the two characters of a byte.
    #[tactic(auto, using(crate::specs::DigitsLaws::wrote_byte))]
    pub(crate) fn put_byte(&self, text: &mut [u8], at: usize, byte: u8)
        requires { at + 1 < length text.old }
        ensures { WrittenAt at (spell (byte ∷ [])) text.old text.new }
    {
        text[at] = self.characters[usize::from(byte / 16)];
        text[at + 1] = self.characters[usize::from(byte % 16)];
    }

    // Writes the characters of the bytes.
    pub(crate) fn put_bytes(&self, text: &mut [u8], at: usize, bytes: &[u8])
        requires { at + length bytes.now * 2 ≤ length text.old }
        ensures { WrittenAt at (spell bytes.now) text.old text.new }
    {
        for (i, byte) in bytes.iter().enumerate() {
            self.put_byte(text, at + i * 2, *byte);
        }
    }
}

// Writes the characters of the bytes. The digits are computed, not looked up, so that the loop vectorises.
pub fn put_bytes(text: &mut [u8], at: usize, bytes: &[u8])
    requires { at + length bytes.now * 2 ≤ length text.old }
    ensures { WrittenAt at (spell bytes.now) text.old text.new }
{
    for (i, byte) in bytes.iter().enumerate() {
        text[at + i * 2] = hex_digit(*byte / 16);
        text[at + i * 2 + 1] = hex_digit(*byte % 16);
    }
}
