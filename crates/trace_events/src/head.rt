// The head of a line: the tokens that its event takes in and puts out, and the earliest and latest millisecond of the event.
ghost use Rattle.std.specs.Prelude.{◌≡◌};
ghost use Rattle.trace_events.specs.Events.{no_head};
ghost use Rattle.trace_events.specs.Precedence.{token_step};

use crate::tokens::Tokens;

#[derive(Clone, Copy)]
pub struct Head {
    pub ins: Tokens,
    pub outs: Tokens,
    pub from: u32,
    pub to: u32,
}

impl Head {
    pub fn empty() -> Head
        ensures { result ≡ no_head }
    {
        let none = Tokens::none();
        Head {
            ins: none,
            outs: none,
            from: 0,
            to: 0,
        }
    }

    // A token that this line puts out is taken in by the other.
    pub fn passes_to(self, other: Head) -> bool
        ensures { result ≡ token_step self other }
    {
        let outs = self.outs;
        let ins = other.ins;
        outs.shares(ins)
    }
}
