// Locks and permits handed over in a draft of the two tables, judged there, and put into the window with the log.
#![tactic(auto)]

ghost use Rattle.std.specs.Prelude.{◌≡◌, true, ℕ, ◌≤◌};
ghost use Rattle.rules.specs.Locks.{clashes_permitted};
ghost use Rattle.rules.specs.Effects.{move_held, hand_over};
ghost use Rattle.layout.specs.Codec.{lock_section, decode, encode};
ghost use Rattle.layout.specs.Memory.{sound_bytes};
ghost use Rattle.scope.specs.Entries.{entries_of};
ghost use Rattle.locks.specs.Held.{Modes, NoneFrom};
ghost use Rattle.clashes.specs.LocksAndPermits.{LocksAndPermits};

use layout::{Entries, Header, Locks, Log, Permits, Ties, Window};
use places::header::Figure;
use reads::Sound;
use scope::{HandOver, Scope};

// A copy of a window's locks and permits, in which they are handed over, and how many entries and permits there are.
#[derive(Drop)]
pub struct Draft {
    pub locks: [u8; Locks::SIZE],
    pub permits: [u8; Permits::SIZE],
    pub entries: usize,
    pub count: usize,
    ghost few_entries: { entries ≤ 256 },
    ghost few_permits: { count ≤ 1024 },
}

impl Draft {
    ghost use Rattle.handed.specs.Draft.{HasTables};

    // The locks and permits of a sound window.
    fn load(&mut self, w: Sound)
        ensures { HasTables (decode w.entry.bytes.now) self.new }
    {
        let bytes = w.bytes;
        self.locks.copy_from_slice(&bytes[Locks::AT..Permits::AT]);
        self.permits.copy_from_slice(&bytes[Permits::AT..Ties::AT]);
        self.entries = w.entries();
        self.count = w.permits();
    }

    // The locks of one change go over to another, on the entries that are named.
    fn hand_locks(&mut self, over: HandOver)
        ensures rest { (self.new.permits ≡ self.old.permits) × (self.new.entries ≡ self.old.entries) × (self.new.count ≡ self.old.count) }
        ensures locks { (held : ℕ → ℕ → ℕ) → Modes held → NoneFrom self.old.entries held → self.old.locks ≡ lock_section held → self.new.locks ≡ lock_section (move_held over.from over.to (entries_of over.scope) held) }
    {
        match over.scope {
            Scope::Every => {
                locks::hand_over_all(&mut self.locks, self.entries, over.from, over.to);
            }
            Scope::Only(entry) => locks::hand_over(&mut self.locks, entry, over.from, over.to),
        }
    }

    // The locks and permits of a sound window, after those of one change went over to another.
    pub fn hand_over(&mut self, w: Sound, over: HandOver)
        ensures { HasTables (hand_over (decode w.entry.bytes.now) over.from over.to (entries_of over.scope)) self.new }
    {
        self.load(w);
        self.hand_locks(over);
        self.count = permits::hand_over(&mut self.permits, self.count, over);
    }

    // Whether each clashing pair of locks has a permit.
    pub fn all_permitted(&self) -> bool
        ensures { (W : _) → LocksAndPermits self.now.locks self.now.permits self.now.entries self.now.count W → result ≡ clashes_permitted W }
    {
        clashes::all_permitted(&self.locks, self.entries, &self.permits, self.count)
    }

    // The window takes the locks and permits, and its log's records are handed over too.
    pub fn put_into(&self, w: &mut [u8; Window::SIZE], over: HandOver)
        requires { sound_bytes w.old ≡ true }
        ensures { HasTables (hand_over (decode w.old) over.from over.to (entries_of over.scope)) self.now → w.new ≡ encode (hand_over (decode w.old) over.from over.to (entries_of over.scope)) }
    {
        let view = Sound { bytes: &*w };
        let records = view.records();
        w[Locks::AT..Permits::AT].copy_from_slice(&self.locks);
        w[Permits::AT..Ties::AT].copy_from_slice(&self.permits);
        change_log::hand_over(&mut w[Log::AT..Window::SIZE], records, over);
        Figure::Permits.store(&mut w[Header::AT..Entries::AT], self.count as u16);
    }
}
