// What is done with a packet that meets an entry.
ghost use Rattle.std.specs.Prelude.{◌≡◌};
ghost use Rattle.flow.specs.Entries.{action_code};

#[derive(Clone, Copy, PartialEq, Eq)]
pub enum Action {
    Drop,
    Controller,
    Port(u16),
}

impl Action {
    // A number for each action.
    pub fn code(self) -> u32
        ensures { result ≡ action_code self }
    {
        match self {
            Action::Drop => 0,
            Action::Controller => 1,
            Action::Port(n) => n as u32 + 2,
        }
    }
}
