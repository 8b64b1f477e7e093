// The modes of a lock, by name.

ghost use Rattle.std.specs.Prelude.{◌≡◌};

// The mode of a lock that there is; its number is the one that calls and the rules have.
#[derive(Clone, Copy, PartialEq, Eq, PartialOrd, Ord)]
pub enum Mode {
    Read = 1,
    Write = 2,
}

impl Mode {
    ghost use Rattle.locks.specs.Modes.{StandsFor};

    // The mode that a number stands for, if it stands for one.
    pub fn of(number: u8) -> Option<Mode>
        ensures { StandsFor result number }
    {
        match number {
            1 => Some(Mode::Read),
            2 => Some(Mode::Write),
            _ => None,
        }
    }
}
