// What the show program prints of a HEX text: the verdict of each level on its image.
#![tactic(auto)]

ghost use Rattle.std.specs.Prelude.{◌≡◌, length};
ghost use Rattle.io.specs.Counts.{IsPrefixLen};
ghost use Rattle.refusals.specs.Refusals.{result as result_held, held_after};
ghost use Rattle.display.specs.Page.{page_of};

// Words and numbers on a page.
mod words;

// What is printed of a text and of an image.
mod page;

// the longest line of a level: specs/Page.antt adds it up from its parts, and the proof fails where this is less
const LEVEL_ROOM: usize = 230;

pub const PAGE_SIZE: usize = limits::LAST_LEVEL as usize * LEVEL_ROOM;

// The page's bytes from its start on, as many as the answer says, are what is printed; zeros stand after them.
#[tactic(auto, using(crate::specs::PageLaws::page_ends, crate::specs::PageLaws::page_shown))]
pub fn show(text: &[u8], page: &mut [u8; PAGE_SIZE]) -> usize
    ensures end { result ≡ length (page_of text.now) }
    ensures page { page.new ≡ held_after (length page.old) (result_held (page_of text.now)) }
    ensures within { IsPrefixLen result page.new }
{
    let mut printed = words::Page::empty(*page);
    printed.put_page(text);
    *page = printed.bytes;
    numbers::slices::clear_from(page, printed.end);
    printed.end
}
