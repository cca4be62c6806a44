// A line's characters compared with those that are due, several at once, as one number.
ghost use Rattle.std.specs.Prelude.{◌≡◌, ◌+◌, ◌≤◌, ◌<◌, length};
ghost use Rattle.hexdigits.specs.DigitsLaws.{SpellsByte};
ghost use Rattle.hexlines.specs.LettersLaws.{When, end_record, FourDigits, SpelledDigits, AddressDue};

use numbers::fields::Number;

// The two characters of a data record's type, as a number.
const TYPE_00: u16 = 0x3030;

// Whether four characters are those of four digits, all in upper or all in lower case. Both are numbers of four bytes; with 6 added,
// the byte of a digit above 9 passes 16.
fn spelled(found: u32, digits: u32) -> bool
    requires { FourDigits digits }
    ensures { When result (SpelledDigits found digits) }
{
    let letters = ((digits + 0x0606_0606) / 16) & 0x0101_0101;
    let decimal = digits + 0x3030_3030;
    if found == decimal + letters * 7 {
        return true;
    }
    found == decimal + letters * 39
}

// Whether a line's address is this one, and its type that of a data record.
pub fn address_is(line: &[u8], at: usize) -> bool
    requires { at < 4096 }
    ensures { When result (AddressDue line.now at) }
{
    if u16::at(line, 7) != TYPE_00 {
        return false;
    }
    let digits = at / 256 * 256 + at / 16 % 16 * 65536 + at % 16 * 16777216;
    spelled(u32::at(line, 3), digits as u32)
}

// Whether the two characters at a place spell this byte: with two zeros after them they are four.
pub fn byte_is(line: &[u8], from: usize, byte: usize) -> bool
    requires { byte < 256 }
    ensures { When result (SpellsByte line.now from byte) }
{
    let digits = byte / 16 + byte % 16 * 256;
    spelled(u32::from(u16::at(line, from)) + 0x3030_0000, digits as u32)
}

// Whether a line is the end record as most writers make it, `:00000001FF` and LF, which every text has once.
pub fn is_end_record(line: &[u8]) -> bool
    ensures { When result (line.now ≡ end_record) }
{
    line == b":00000001FF\n".as_slice()
}
