// Lists whose notices can be read where they lie.
ghost use Rattle.std.specs.Prelude.{◌≡◌, ℕ, ◌%◌, ◌<◌, List, length};
ghost use Rattle.notices.specs.Notices.{count_of, notice_at};
ghost use Rattle.wire.specs.Decoded.{decoded};

use notices::Notice;

// How many bytes a notice has in a lent list.
const NOTICE_BYTES: usize = 4 * notices::NOTICE_NUMBERS;

// A list of notices, kept in some form.
pub(crate) trait NoticeList: Copy {
    // The numbers of the list.
    ghost numbers: { Self → List ℕ };

    // The notice at index k, which the list has. So it is not asked again whether it has it, as `notices::notice_at` does, which is slower.
    fn notice(self, k: usize) -> Notice
        requires { k < count_of (numbers self) }
        ensures { result ≡ notice_at (numbers self) k };
}

impl NoticeList for &[u32] {
    ghost numbers = { λ list. list.now };

    #[tactic(auto, using(notices::proofs::NoticeLaws::notice_read))]
    fn notice(self, k: usize) -> Notice {
        let at = k * notices::NOTICE_NUMBERS;
        Notice {
            day: self[at],
            start: self[at + 1],
            end: self[at + 2],
        }
    }
}

// Lent bytes that are whole numbers.
#[derive(Clone, Copy)]
pub(crate) struct LentNumbers<'a> {
    pub(crate) bytes: &'a [u8],
    ghost whole: { length bytes.now % 4 ≡ 0 },
}

impl NoticeList for LentNumbers<'_> {
    ghost numbers = { λ list. decoded list.bytes.now };

    #[tactic(auto, using(crate::proofs::LentLaws::lent_read))]
    fn notice(self, k: usize) -> Notice {
        let from = k * NOTICE_BYTES;
        let part = &self.bytes[from..from + NOTICE_BYTES];
        let day = wire::number_at(part, 0);
        let start = wire::number_at(part, 1);
        let end = wire::number_at(part, 2);
        Notice { day, start, end }
    }
}
