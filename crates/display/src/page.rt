// What is printed of a text and of an image, put on a page part by part; each part asks for its room.
ghost use Rattle.std.specs.Prelude.{◌≡◌, ◌++◌, ◌+◌, ◌≤◌, Ok};
ghost use Rattle.image.specs.Layout.{layout_verdict};
ghost use Rattle.image.specs.Find.{Found};
ghost use Rattle.bodies.specs.Identity.{identity_of};
ghost use Rattle.sets.specs.Set.{prescales_of};
ghost use Rattle.limits.specs.Limits.{last_level};
ghost use Rattle.display.specs.Page.{refused_words, identity_words, order_words, image_words, level_line, level_lines, text_refused, page_of};
ghost use Rattle.display.specs.Page.{refused_room, identity_room, accepted_room, level_room, text_refused_room, page_room};
ghost use Rattle.display.specs.Words.{printed, pair_room};

use crate::words::Page;
use hextext::TOO_LARGE;
use limits::{LARGEST_IMAGE, LAST_LEVEL, LONGEST_SHOWN_TEXT};
use refusals::Refusal;

// The body of a kind in an image that a panel has judged: the layout is not judged again, as it would be by `place_of`.
fn body_of(image: &[u8], kind: u32) -> &[u8]
    requires { layout_verdict image.now ≡ Ok tt }
    ensures { Found image.entry result kind }
{
    finder::part_at(image, finder::stated(image, kind))
}

impl Page {
    #[tactic(auto, using(crate::specs::PageLaws::refused_printed))]
    fn put_refused(&mut self, refusal: Refusal)
        requires { self.old.end + refused_room ≤ page_room }
        ensures words { printed self.new ≡ printed self.old ++ refused_words refusal.number refusal.detail }
        ensures room { self.new.end ≤ self.old.end + refused_room }
    {
        self.put_pair(b" refused ", u64::from(refusal.number), refusal.detail);
        self.put(b"\n");
    }

    // The body of kind 1: serial and date.
    fn put_identity(&mut self, body: &[u8])
        requires { self.old.end + identity_room ≤ page_room }
        ensures words { printed self.new ≡ printed self.old ++ identity_words (identity_of body.now) }
        ensures room { self.new.end ≤ self.old.end + identity_room }
    {
        let identity = bodies::read_identity(body);
        self.put_field(b" serial ", u64::from(identity.serial));
        self.put_field(b" date ", u64::from(identity.year));
        self.put_two_digits(identity.month);
        self.put_two_digits(identity.day);
    }

    // The body of kind 2 or 3: the orders NP and NT.
    #[tactic(auto, using(crate::specs::PageLaws::orders_printed))]
    fn put_orders(&mut self, words: &[u8], body: &[u8])
        requires { self.old.end + pair_room words.now ≤ page_room }
        ensures words { printed self.new ≡ printed self.old ++ order_words words.now (prescales_of body.now) }
        ensures room { self.new.end ≤ self.old.end + pair_room words.now }
    {
        let prescales = sets::read_prescales(body);
        self.put_pair(
            words,
            u64::from(prescales.pressure.order),
            u64::from(prescales.temperature.order),
        );
    }

    fn put_accepted(&mut self, image: &[u8])
        requires room { self.old.end + accepted_room ≤ page_room }
        requires layout { layout_verdict image.now ≡ Ok tt }
        ensures words { printed self.new ≡ printed self.old ++ image_words image.now }
        ensures room { self.new.end ≤ self.old.end + accepted_room }
    {
        self.put_identity(body_of(image, 1));
        self.put_orders(b" pressure ", body_of(image, 2));
        self.put_orders(b" temperature ", body_of(image, 3));
        self.put(b"\n");
    }

    #[tactic(auto, using(crate::specs::PageLaws::verdict_laid, crate::specs::PageLaws::level_accepted, crate::specs::PageLaws::level_refused))]
    fn put_level(&mut self, level: u32, image: &[u8])
        requires { self.old.end + level_room ≤ page_room }
        ensures words { printed self.new ≡ printed self.old ++ level_line level image.now }
        ensures room { self.new.end ≤ self.old.end + level_room }
    {
        self.put_field(b"level ", u64::from(level));
        match panel::verdict(image, level) {
            Ok(()) => self.put_accepted(image),
            Err(refusal) => self.put_refused(refusal),
        }
    }

    // The line of each level, from level 1 on.
    #[tactic(auto, using(crate::specs::PageLaws::levels_first, crate::specs::PageLaws::levels_room, crate::specs::PageLaws::levels_more, crate::specs::PageLaws::levels_end))]
    fn put_levels(&mut self, image: &[u8])
        requires { self.old.end ≡ 0 }
        ensures { printed self.new ≡ printed self.old ++ level_lines last_level image.now }
    {
        for level in 1..=LAST_LEVEL {
            self.put_level(level, image);
        }
    }

    #[tactic(auto, using(crate::specs::PageLaws::text_refused_printed))]
    fn put_text_refused(&mut self, refusal: Refusal)
        requires { self.old.end + text_refused_room ≤ page_room }
        ensures { printed self.new ≡ printed self.old ++ text_refused refusal.number refusal.detail }
    {
        self.put(b"text");
        self.put_refused(refusal);
    }

    #[tactic(auto, using(crate::specs::PageLaws::too_long_printed, crate::specs::PageLaws::refusal_printed, crate::specs::PageLaws::read_printed))]
    pub(crate) fn put_page(&mut self, given: &[u8])
        requires { self.old.end ≡ 0 }
        ensures { printed self.new ≡ printed self.old ++ page_of given.now }
    {
        if LONGEST_SHOWN_TEXT < given.len() {
            self.put_text_refused(Refusal {
                number: TOO_LARGE,
                detail: 0,
            });
            return;
        }
        let mut image = [0u8; LARGEST_IMAGE];
        match hexread::read(given, &mut image) {
            Ok(length) => self.put_levels(numbers::slices::part(&image, 0, length)),
            Err(refusal) => self.put_text_refused(refusal),
        }
    }
}
