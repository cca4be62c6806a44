// The contents lines that the builder is given, in either of the forms in which they are lent.
ghost use Rattle.std.specs.Prelude.{◌≡◌, List, ◌<◌, length, get_or};
ghost use Rattle.builder.specs.declared.KindAndLength.{KindAndLength};
ghost use Rattle.builder.specs.Lines.{lines_given, no_line};

use crate::KindAndLength;

// A list of contents lines, read one by one.
pub trait Lines {
    ghost lines: { Self → List KindAndLength };

    fn count(&self) -> usize
        ensures { result ≡ length (lines self.now) };

    fn line(&self, i: usize) -> KindAndLength
        requires { i < length (lines self.now) }
        ensures { result ≡ get_or (lines self.now) i no_line };
}

impl Lines for &[KindAndLength] {
    ghost lines = { λ list. list.now };

    fn count(&self) -> usize {
        self.len()
    }

    fn line(&self, i: usize) -> KindAndLength {
        self[i]
    }
}

// Line i is kinds[i] with lengths[i]; where they are not equally many there is no line.
#[derive(Clone, Copy)]
pub struct KindsAndLengths<'a> {
    pub kinds: &'a [u32],
    pub lengths: &'a [usize],
}

impl Lines for KindsAndLengths<'_> {
    ghost lines = { λ both. lines_given both.kinds.now both.lengths.now };

    #[tactic(auto, using(crate::specs::GivenLaws::given_uneven, crate::specs::GivenLaws::given_counted))]
    fn count(&self) -> usize {
        if self.kinds.len() != self.lengths.len() {
            return 0;
        }
        self.kinds.len()
    }

    #[tactic(auto, using(crate::specs::GivenLaws::given_within, crate::specs::GivenLaws::given_there))]
    fn line(&self, i: usize) -> KindAndLength {
        KindAndLength {
            kind: self.kinds[i],
            length: self.lengths[i],
        }
    }
}
