// A page, and words and numbers put on it; each function asks for their room.
// Numbers are put by `io::decimal`, since `write!` promises no `Ok` where there is room: tried with `impl fmt::Write for Page`, the bytes were proved in the
// `Ok` arm, and the `Err` arm stayed open. On a `Cursor` or a `&mut [u8]`, `write!` does not promise which bytes it writes even on `Ok`.
ghost use Rattle.std.specs.Prelude.{◌≤◌, length};

use crate::PAGE_SIZE;

// the digits of a number of 64 bits
const NUMBER_ROOM: usize = 20;

// The bytes before `end` are what is printed. Each method asks for the room of its own words, as a number that its caller adds up: a bound in the type
// would say no more than the page's size.
#[derive(Clone, Copy)]
pub struct Page {
    pub bytes: [u8; PAGE_SIZE],
    pub end: usize,
    pub ghost within: { end ≤ length bytes },
}

impl Page {
    ghost use Rattle.std.specs.Prelude.{◌≡◌, [], ◌∷◌, ◌++◌, ◌+◌, ◌<◌};
    ghost use Rattle.display.specs.Words.{printed, decimal, field, pair, two_digits, number_room, field_room, pair_room, two_digits_room};
    ghost use Rattle.display.specs.Page.{page_room};

    // The lent page, with nothing printed on it yet. The length of an array is known where it is a parameter, not where it lies behind a reference.
    pub(crate) fn empty(lent: [u8; PAGE_SIZE]) -> Page
        ensures bytes { result.bytes ≡ lent }
        ensures end { result.end ≡ 0 }
    {
        Page {
            bytes: lent,
            end: 0,
        }
    }

    pub(crate) fn put(&mut self, words: &[u8])
        requires { self.old.end + length words.now ≤ page_room }
        ensures words { printed self.new ≡ printed self.old ++ words.now }
        ensures end { self.new.end ≡ self.old.end + length words.now }
    {
        let end = self.end + words.len();
        self.bytes[self.end..end].copy_from_slice(words);
        self.end = end;
    }

    #[tactic(auto, using(crate::specs::WordsLaws::number_printed))]
    pub(crate) fn put_number(&mut self, n: u64)
        requires { self.old.end + number_room ≤ page_room }
        ensures words { printed self.new ≡ printed self.old ++ decimal n }
        ensures room { self.new.end ≤ self.old.end + number_room }
    {
        let mut digits = [0u8; NUMBER_ROOM];
        let count = io::decimal(n, &mut digits);
        self.put(&digits[..count]);
    }

    // Words, and a number after them.
    #[tactic(auto, using(crate::specs::WordsLaws::field_printed))]
    pub(crate) fn put_field(&mut self, words: &[u8], n: u64)
        requires { self.old.end + field_room words.now ≤ page_room }
        ensures words { printed self.new ≡ printed self.old ++ field words.now n }
        ensures room { self.new.end ≤ self.old.end + field_room words.now }
    {
        self.put(words);
        self.put_number(n);
    }

    // Words, a number, a blank, and a second number.
    #[tactic(auto, using(crate::specs::WordsLaws::pair_printed))]
    pub(crate) fn put_pair(&mut self, words: &[u8], first: u64, second: u64)
        requires { self.old.end + pair_room words.now ≤ page_room }
        ensures words { printed self.new ≡ printed self.old ++ pair words.now first second }
        ensures room { self.new.end ≤ self.old.end + pair_room words.now }
    {
        self.put_field(words, first);
        self.put_field(b" ", second);
    }

    // A hyphen, and a number of two digits or more after it.
    #[tactic(auto, using(crate::specs::WordsLaws::two_digits_printed))]
    pub(crate) fn put_two_digits(&mut self, n: u8)
        requires { self.old.end + two_digits_room ≤ page_room }
        ensures words { printed self.new ≡ printed self.old ++ two_digits n }
        ensures room { self.new.end ≤ self.old.end + two_digits_room }
    {
        self.put_field(b"-", u64::from(n / 10));
        self.put(&[b'0' + n % 10]);
    }
}
