// What a call that changes a change does when it is not refused, and a place in line that is left, on the bytes of a sound window. The number of a change that is not refused fits a byte.
#![tactic(auto)]

ghost use Rattle.std.specs.Prelude.{◌≡◌, true, false};
ghost use Rattle.rules.specs.Base.{put};
ghost use Rattle.rules.specs.Window.{limits, with_status, no_change};
ghost use Rattle.rules.specs.Calls.{Initiate, Begin, Complete, done as isDone};
ghost use Rattle.rules.specs.Effects.{effect, leave};
ghost use Rattle.rules.specs.Refusals.{checks, first_failed};
ghost use Rattle.layout.specs.Codec.{decode, encode};
ghost use Rattle.layout.specs.Memory.{sound_bytes};
ghost use Rattle.replies.specs.Gives.{Gives, written};

use layout::{Changes, Entries, Header, Line, Locks, Window};
use places::changes::Status;
use places::header::Figure;
use places::{store_parent, store_status};
use reads::Sound;
use replies::{Reply, done};

// The next number is given to a change, with status 1 and its parent.
pub fn initiate(w: &mut [u8; Window::SIZE], parent: u32) -> Reply
    requires w_value { sound_bytes w.old ≡ true }
    requires parent_value { first_failed (checks limits (decode w.old) (Initiate parent)) ≡ 0 }
    ensures { Gives (written (effect (decode w.old) (Initiate parent))) result w.new }
{
    let change = Sound { bytes: &*w }.given() + 1;
    store_status(
        &mut w[Changes::AT..Line::AT],
        change as u8,
        Status::Initiated as u8,
    );
    store_parent(&mut w[Changes::AT..Line::AT], change as u8, parent as u8);
    Figure::Given.store(&mut w[Header::AT..Entries::AT], change as u16);
    done(change as u32)
}

// The status of a change becomes s.
fn set_status(w: &mut [u8; Window::SIZE], change: u32, s: u8) -> Reply
    requires w_value { sound_bytes w.old ≡ true }
    requires change_value { no_change (decode w.old) change ≡ false }
    ensures { Gives (written (isDone 0 (with_status (decode w.old) (put (decode w.old).status change s)))) result w.new }
{
    store_status(&mut w[Changes::AT..Line::AT], change as u8, s);
    done(0)
}

// The change runs.
pub fn begin(w: &mut [u8; Window::SIZE], change: u32) -> Reply
    requires w_value { sound_bytes w.old ≡ true }
    requires change_value { first_failed (checks limits (decode w.old) (Begin change)) ≡ 0 }
    ensures { Gives (written (effect (decode w.old) (Begin change))) result w.new }
{
    set_status(w, change, Status::Running as u8)
}

// A change leaves its line.
pub fn leave_line(w: &mut [u8; Window::SIZE], change: u32)
    requires w_value { sound_bytes w.old ≡ true }
    requires change_value { no_change (decode w.old) change ≡ false }
    ensures { w.new ≡ encode (leave (decode w.old) change) }
{
    let count = Sound { bytes: &*w }.waiters();
    let left = line::leave(&mut w[Line::AT..Locks::AT], count, change as u8);
    Figure::Waiters.store(&mut w[Header::AT..Entries::AT], left as u16);
}

// The change is completed, and leaves its line.
pub fn complete(w: &mut [u8; Window::SIZE], change: u32) -> Reply
    requires w_value { sound_bytes w.old ≡ true }
    requires change_value { first_failed (checks limits (decode w.old) (Complete change)) ≡ 0 }
    ensures { Gives (written (effect (decode w.old) (Complete change))) result w.new }
{
    leave_line(w, change);
    set_status(w, change, Status::Completed as u8)
}
