// Pairs of characters as bytes, by a table of digit values.
ghost use Rattle.std.specs.Prelude.{◌≡◌, ◌+◌, ◌<◌, length, replicate};
ghost use Rattle.hexread.specs.DigitsLaws.{no_digit, DigitValues, DigitValue, Pair};

// In place of a digit's value. Above what a record's six parts add up to, so that their sum shows whether one is no digits.
pub const NO_DIGIT: usize = 2048;

// Fills a table that holds NO_DIGIT alone with the digits' values.
pub fn put_digits(values: &mut [u16; 256])
    requires { values.old ≡ replicate 256 no_digit }
    ensures { DigitValues values.new }
{
    // one by one: `copy_from_slice` also tests whether the two slices overlap
    // 0 to 9
    values[48] = 0;
    values[49] = 1;
    values[50] = 2;
    values[51] = 3;
    values[52] = 4;
    values[53] = 5;
    values[54] = 6;
    values[55] = 7;
    values[56] = 8;
    values[57] = 9;
    // A to F
    values[65] = 10;
    values[66] = 11;
    values[67] = 12;
    values[68] = 13;
    values[69] = 14;
    values[70] = 15;
    // a to f
    values[97] = 10;
    values[98] = 11;
    values[99] = 12;
    values[100] = 13;
    values[101] = 14;
    values[102] = 15;
}

// The value of each character as a hexadecimal digit, or NO_DIGIT: a table, for a pair by itself. It lies on the stack, so its entries are
// no wider than they must be.
#[derive(Clone, Copy)]
pub struct DigitTable<'a> {
    pub values: &'a [u16; 256],
    ghost all: { DigitValues values.now },
}

impl DigitTable<'_> {
    #[tactic(auto, using(crate::specs::DigitsLaws::value_in_table))]
    fn value(&self, character: u8) -> usize
        ensures { DigitValue character result }
    {
        let found = self.values[character as usize];
        found as usize
    }

    // The byte that the two characters at `at` spell, NO_DIGIT or more where they are no digits.
    pub(crate) fn pair(&self, text: &[u8], at: usize) -> usize
        requires { at + 1 < length text.now }
        ensures { Pair text.now at result }
    {
        let high = self.value(text[at]);
        let low = self.value(text[at + 1]);
        high * 16 + low
    }
}
