// What a sound window holds, read from its bytes. Numbers are as a caller gives them: a change or an entry that there cannot be has
// status, parent, value and lock 0. The lines are asked of changes and entries that there are.
#![tactic(auto)]

ghost use Rattle.std.specs.Prelude.{◌≡◌, true, false, ◌≤◌, length};
ghost use Rattle.std.specs.Option.{unwrap_or};
ghost use Rattle.rules.specs.Base.{outside as isOutside};
ghost use Rattle.rules.specs.Window.{no_change, no_entry, live, running};
ghost use Rattle.rules.specs.Line.{waits_elsewhere, first_in_line};
ghost use Rattle.layout.specs.Codec.{decode};
ghost use Rattle.layout.specs.Memory.{sound_bytes};

use layout::{Changes, Entries, Header, Line, Locks, Permits, Window};
use places::changes::Status;
use places::header::Figure;

// The bytes of a sound window, lent to be read.
#[derive(Clone, Copy)]
pub struct Sound<'a> {
    pub bytes: &'a [u8; Window::SIZE],
    ghost sound: { sound_bytes bytes.now ≡ true },
}

impl Sound<'_> {
    // How many entries there are.
    pub fn entries(self) -> usize
        ensures value { result ≡ (decode self.entry.bytes.now).entries }
        ensures upper_bound { result ≤ 256 }
    {
        let bytes = self.bytes;
        Figure::Entries.read(&bytes[Header::AT..Entries::AT])
    }

    // The highest change number given.
    pub fn given(self) -> usize
        ensures value { result ≡ (decode self.entry.bytes.now).given }
        ensures upper_bound { result ≤ 255 }
    {
        let bytes = self.bytes;
        Figure::Given.read(&bytes[Header::AT..Entries::AT])
    }

    // How many log records there are.
    pub fn records(self) -> usize
        ensures value { result ≡ length (decode self.entry.bytes.now).log }
        ensures upper_bound { result ≤ 2048 }
    {
        let bytes = self.bytes;
        Figure::Records.read(&bytes[Header::AT..Entries::AT])
    }

    // How many permits there are.
    pub fn permits(self) -> usize
        ensures value { result ≡ length (decode self.entry.bytes.now).permits }
        ensures upper_bound { result ≤ 1024 }
    {
        let bytes = self.bytes;
        Figure::Permits.read(&bytes[Header::AT..Entries::AT])
    }

    // How many ties there are.
    pub fn ties(self) -> usize
        ensures value { result ≡ length (decode self.entry.bytes.now).ties }
        ensures upper_bound { result ≤ 512 }
    {
        let bytes = self.bytes;
        Figure::Ties.read(&bytes[Header::AT..Entries::AT])
    }

    // How many stand in line.
    pub fn waiters(self) -> usize
        ensures value { result ≡ length (decode self.entry.bytes.now).line }
        ensures upper_bound { result ≤ 255 }
    {
        let bytes = self.bytes;
        Figure::Waiters.read(&bytes[Header::AT..Entries::AT])
    }

    // The status of a change.
    pub fn status(self, change: u32) -> u8
        ensures { result ≡ (decode self.entry.bytes.now).status change }
    {
        if Changes::MOST < change as usize {
            return 0;
        }
        let bytes = self.bytes;
        places::status(&bytes[Changes::AT..Line::AT], change as u8)
    }

    // The parent of a change.
    pub fn parent(self, change: u32) -> u8
        ensures { result ≡ (decode self.entry.bytes.now).parent change }
    {
        if Changes::MOST < change as usize {
            return 0;
        }
        let bytes = self.bytes;
        places::parent(&bytes[Changes::AT..Line::AT], change as u8)
    }

    // The value of an entry.
    pub fn value(self, entry: u32) -> u32
        ensures { result ≡ (decode self.entry.bytes.now).value entry }
    {
        if Entries::MOST <= entry as usize {
            return 0;
        }
        let bytes = self.bytes;
        places::value(&bytes[Entries::AT..Changes::AT], entry as u8)
    }

    // The lock of a change on an entry.
    pub fn held(self, entry: u32, change: u32) -> u8
        ensures { result ≡ (decode self.entry.bytes.now).held entry change }
    {
        if Entries::MOST <= entry as usize {
            return 0;
        }
        if Changes::MOST < change as usize {
            return 0;
        }
        let bytes = self.bytes;
        let table = &bytes[Locks::AT..Permits::AT];
        locks::mode(table, entry as u8, change as u8)
    }

    // The first change in the line of an entry.
    pub fn first_in_line(self, entry: u32) -> Option<u8>
        requires entry_value { no_entry (decode self.bytes.now) entry ≡ false }
        ensures { unwrap_or result 0 ≡ first_in_line (decode self.entry.bytes.now).line entry }
    {
        let bytes = self.bytes;
        let count = self.waiters();
        line::front(&bytes[Line::AT..Locks::AT], count, entry as u8)
    }

    // Whether a change stands in the line of another entry.
    pub fn waits_elsewhere(self, change: u32, entry: u32) -> bool
        requires change_value { no_change (decode self.bytes.now) change ≡ false }
        requires entry_value { no_entry (decode self.bytes.now) entry ≡ false }
        ensures { result ≡ waits_elsewhere (decode self.entry.bytes.now).line change entry }
    {
        let bytes = self.bytes;
        let count = self.waiters();
        line::elsewhere(
            &bytes[Line::AT..Locks::AT],
            count,
            change as u8,
            entry as u8,
        )
    }

    // Whether no change has the number.
    pub fn no_change(self, change: u32) -> bool
        ensures { result ≡ no_change (decode self.entry.bytes.now) change }
    {
        let given = self.given() as u32;
        (change == 0) | (given < change)
    }

    // Whether there is no such entry.
    pub fn no_entry(self, entry: u32) -> bool
        ensures { result ≡ no_entry (decode self.entry.bytes.now) entry }
    {
        self.entries() as u32 <= entry
    }

    // Whether a change is live.
    pub fn is_live(self, change: u32) -> bool
        ensures { result ≡ live (decode self.entry.bytes.now) change }
    {
        let given = self.given() as u32;
        let status = self.status(change);
        (change <= given) & !outside(1, 3, u32::from(status))
    }

    // Whether a change is running.
    pub fn is_running(self, change: u32) -> bool
        ensures { result ≡ running (decode self.entry.bytes.now) change }
    {
        self.status(change) == Status::Running as u8
    }
}

// Whether a number does not lie from low to high.
pub fn outside(low: u32, high: u32, x: u32) -> bool
    ensures { result ≡ isOutside low high x }
{
    (x < low) | (high < x)
}
