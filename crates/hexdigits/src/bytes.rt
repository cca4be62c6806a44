// The bytes that pairs of digits spell, written into a buffer.
ghost use Rattle.std.specs.Prelude.{◌≡◌, ◌+◌, ◌*◌, ◌≤◌, length, take, drop};
ghost use Rattle.hexdigits.specs.Digits.{PutsBytes};
ghost use Rattle.hexdigits.specs.WrittenPairsLaws.{PairsWritten};
ghost use Rattle.hexdigits.specs.BytesLaws.{PutsWhereRoom};

use crate::digits::digit;

// bytes at a time
const BLOCK: usize = 16;

const BLOCK_CHARACTERS: usize = BLOCK * 2;

// Writes the bytes that `count` pairs from character `from` on spell into the buffer at `to`. Their sum modulo 256, unless
// a character is no digit. The digits are validated after the loop, so that it vectorises.
fn put_pairs(
    characters: &[u8],
    from: usize,
    count: usize,
    buffer: &mut [u8],
    to: usize,
) -> Option<u8>
    requires { (from + count * 2 ≤ length characters.now) × (to + count ≤ length buffer.old) }
    ensures { PairsWritten characters.now from count buffer.old buffer.new to result }
{
    let mut sum: u8 = 0;
    let mut largest: u8 = 0;
    for i in 0..count {
        let high = digit(characters[from + i * 2]);
        let low = digit(characters[from + i * 2 + 1]);
        let byte = high % 16 * 16 + low % 16;
        buffer[to + i] = byte;
        sum = sum.wrapping_add(byte);
        largest = largest.max(high.max(low));
    }
    if 16 <= largest {
        return None;
    }
    Some(sum)
}

// A block's characters, copied: so the compiler knows that the buffer does not alias them.
#[tactic(auto, using(crate::specs::BlockLaws::copied_first, crate::specs::BlockLaws::copied_more, crate::specs::BlockLaws::copied_end))]
fn block_at(characters: &[u8], from: usize) -> [u8; BLOCK_CHARACTERS]
    requires { from + 32 ≤ length characters.now }
    ensures { result ≡ take 32 (drop from characters.now) }
{
    let mut block = [0u8; BLOCK_CHARACTERS];
    for i in 0..BLOCK_CHARACTERS {
        block[i] = characters[from + i];
    }
    block
}

// As `put_pairs`, in blocks: their length is a constant, so that the loop over a block is unrolled and vectorised.
fn put_in_blocks(
    characters: &[u8],
    from: usize,
    count: usize,
    buffer: &mut [u8],
    to: usize,
) -> Option<u8>
    requires { (from + count * 2 ≤ length characters.now) × (to + count ≤ length buffer.old) }
    ensures { PairsWritten characters.now from count buffer.old buffer.new to result }
{
    let mut sum: u8 = 0;
    // Counted, not worked out as a multiple: the loop over a rest that is known to be shorter than a block would not vectorise.
    let mut put: usize = 0;
    for i in 0..count / BLOCK {
        let block = block_at(characters, from + i * BLOCK_CHARACTERS);
        let more = put_pairs(&block, 0, BLOCK, buffer, to + i * BLOCK)?;
        sum = sum.wrapping_add(more);
        put += BLOCK;
    }
    let rest = put_pairs(characters, from + put * 2, count - put, buffer, to + put)?;
    Some(sum.wrapping_add(rest))
}

// Writes the bytes that pairs of digits spell into the buffer at `to`, where the characters are such pairs and the bytes have room.
#[tactic(auto, using(crate::specs::BytesLaws::puts_odd, crate::specs::BytesLaws::puts_outside, crate::specs::BytesLaws::puts_no_room, crate::specs::BytesLaws::puts_in_room))]
fn put_where_room(characters: &[u8], buffer: &mut [u8], to: usize) -> Option<u8>
    ensures { PutsWhereRoom characters.now to buffer.old result buffer.new }
{
    if characters.len() % 2 != 0 {
        return None;
    }
    let count = characters.len() / 2;
    if buffer.len() < to {
        return None;
    }
    if buffer.len() - to < count {
        return None;
    }
    put_in_blocks(characters, 0, count, buffer, to)
}

// Writes the bytes that pairs of digits spell into the buffer at `to`, and gives their sum modulo 256. Where the characters are no
// such pairs, or the bytes have no room, it gives None, and the buffer is all zeros.
pub fn put_bytes(characters: &[u8], buffer: &mut [u8], to: usize) -> Option<u8>
    ensures { PutsBytes characters.now to buffer.old result buffer.new }
{
    let sum = put_where_room(characters, buffer, to);
    if sum.is_none() {
        numbers::slices::clear_from(buffer, 0);
    }
    sum
}
