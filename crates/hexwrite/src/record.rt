// One record written, with its checksum.
ghost use Rattle.std.specs.Prelude.{◌≡◌, ◌+◌, ◌*◌, ◌<◌, ◌≤◌, [], ◌∷◌, ◌++◌, length};
ghost use Rattle.hextext.specs.Written.{spell, checksum};
ghost use Rattle.laws.specs.BufferWrites.{WrittenAt};
ghost use Rattle.hexwrite.specs.RecordLaws.{WroteRecord};

use crate::digits::{DigitTable, put_bytes};
use numbers::slices::byte_sum;

// The byte that makes the sum of a record's bytes 0 modulo 256.
fn check_byte(head: &[u8], bytes: &[u8]) -> u8
    ensures { result ≡ checksum (head.now ++ bytes.now) }
{
    let sum = byte_sum(head).wrapping_add(byte_sum(bytes));
    ((256 - sum % 256) % 256) as u8
}

// Writes the colon and the bytes before the data.
fn put_head(digits: &DigitTable, text: &mut [u8], at: usize, head: &[u8])
    requires { at + 1 + length head.now * 2 ≤ length text.old }
    ensures { WrittenAt at (58 ∷ spell head.now) text.old text.new }
{
    text[at] = b':';
    digits.put_bytes(text, at + 1, head);
}

// Writes the checksum and the line end.
fn put_end(digits: &DigitTable, text: &mut [u8], at: usize, check: u8)
    requires { at + 3 ≤ length text.old }
    ensures { WrittenAt at (spell (check ∷ []) ++ 10 ∷ []) text.old text.new }
{
    digits.put_byte(text, at, check);
    text[at + 2] = b'\n';
}

// Writes a record. Where the next one starts.
pub fn put_record(
    digits: &DigitTable,
    text: &mut [u8],
    at: usize,
    address: usize,
    kind: u8,
    bytes: &[u8],
) -> usize
    requires { (address < 65536) × (length bytes.now < 256) × (at + 12 + length bytes.now * 2 ≤ length text.old) }
    ensures { WroteRecord at address kind bytes.now text.old result text.new }
{
    let count = bytes.len();
    let head = [
        count as u8,
        (address / 256) as u8,
        (address % 256) as u8,
        kind,
    ];
    let check = check_byte(&head, bytes);
    let end = at + 9 + count * 2;
    put_head(digits, text, at, &head);
    put_bytes(text, at + 9, bytes);
    put_end(digits, text, end, check);
    end + 3
}
