// A refusal as numbers.
ghost use Rattle.std.specs.Prelude.{◌≡◌};
ghost use Rattle.refusals.specs.Refused.{nothing_refused, refused_as};

use crate::line::text_in;
use crate::refusal::Refusal;

// Document 01's number, 0 where nothing is refused; its place; and where the refused line stands in its text, and how long it is.
#[repr(C)]
#[derive(Clone, Copy)]
pub struct Refused {
    pub number: usize,
    pub place: usize,
    pub start: usize,
    pub length: usize,
}

impl Refused {
    pub fn nothing() -> Refused
        ensures { result ≡ nothing_refused }
    {
        Refused {
            number: 0,
            place: 0,
            start: 0,
            length: 0,
        }
    }

    #[tactic(auto, unfolding(crate::specs::Refused::refused_as, crate::specs::Refused::start_of, crate::specs::Refusals::line_of))]
    pub fn from<'a>(trace: &'a [u8], tables: &'a [u8], refusal: Refusal) -> Refused
        ensures { result ≡ refused_as trace.now tables.now refusal }
    {
        let returned = refusal.returned();
        let place = returned.place;
        let text = text_in(returned.source, trace, tables);
        Refused {
            number: usize::from(returned.number),
            place,
            start: text_lines::line_start(text, place),
            length: text_lines::nth_line(text, place).len(),
        }
    }
}
