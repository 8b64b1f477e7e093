// The entries that a delegate names, and what it hands over: what one change owns on them goes to another.
#![tactic(auto)]

ghost use Rattle.std.specs.Prelude.{◌≡◌, ◌≢◌, ◌<◌};
ghost use Rattle.rules.specs.Effects.{every, entries_named};
ghost use Rattle.scope.specs.Entries.{entries_of, takes};

// Every entry, or one.
#[derive(Clone, Copy, PartialEq, Eq)]
pub enum Scope {
    Every,
    Only(u8),
}

impl Scope {
    // The number that names every entry.
    pub const EVERY: u32 = 65_535;

    // What the entry of a delegate names, where it is 65,535 or below 256.
    pub fn named(entry: u32) -> Scope
        requires { entry ≢ every → entry < 256 }
        ensures { entries_of result ≡ entries_named entry }
    {
        let every = entry == Scope::EVERY;
        if every {
            return Scope::Every;
        }
        Scope::Only(entry as u8)
    }

    // Whether an entry is named.
    pub fn names(self, entry: u8) -> bool
        ensures { result ≡ entries_of self entry }
    {
        match self {
            Scope::Every => true,
            Scope::Only(only) => entry == only,
        }
    }
}

// From one change to another, on the entries that a scope names.
#[derive(Clone, Copy, PartialEq, Eq)]
pub struct HandOver {
    pub from: u8,
    pub to: u8,
    pub scope: Scope,
}

impl HandOver {
    // Whether what a change owns on an entry goes over.
    pub fn takes(self, owner: u8, entry: u8) -> bool
        ensures { result ≡ takes self owner entry }
    {
        (owner == self.from) & self.scope.names(entry)
    }
}
