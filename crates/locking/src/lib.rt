// What a lock does when it is not refused, on the bytes of a sound window: it is covered, granted, or blocked and put in line. The numbers of a lock that is not refused fit a byte.
#![tactic(auto)]

ghost use Rattle.std.specs.Prelude.{◌≡◌, ◌<◌, true, IfSome};
ghost use Rattle.std.specs.Option.{unwrap_or};
ghost use Rattle.rules.specs.Window.{limits};
ghost use Rattle.rules.specs.Calls.{Lock};
ghost use Rattle.rules.specs.Effects.{effect, wait, lock_blocker, in_the_way};
ghost use Rattle.rules.specs.Refusals.{checks, first_failed};
ghost use Rattle.layout.specs.Codec.{decode, encode};
ghost use Rattle.layout.specs.Memory.{sound_bytes};
ghost use Rattle.replies.specs.Gives.{Gives, written};

use beside::lowest_blocker;
use effects::leave_line;
use layout::{Entries, Header, Line, Locks, Permits, Ties, Window};
use places::header::Figure;
use reads::Sound;
use replies::{Reply, blocked, done};

// The lowest other holder whose lock clashes with the mode and that has given no permit, to the change or to anybody, that contains it.
fn lock_blocker(view: Sound<'_>, change: u32, entry: u32, mode: u32) -> Option<u8>
    requires mode_value { first_failed (checks limits (decode view.bytes.now) (Lock change entry mode)) ≡ 0 }
    ensures lowest { unwrap_or result 0 ≡ lock_blocker (decode view.entry.bytes.now) change entry mode }
    ensures numbered { IfSome result (λ c. 0 < c) }
{
    let w = view.bytes;
    let count = view.permits();
    let c = change as u8;
    let e = entry as u8;
    let m = mode as u8;
    let clashing = locks::clashing(&w[Locks::AT..Permits::AT], e, m);
    let givers = permits::givers(&w[Permits::AT..Ties::AT], count, c, e, m);
    lowest_blocker(clashing, givers, c)
}

// Who is in the way of a lock: that holder or, where there is none, the other change that is first in the entry's line.
fn in_the_way(view: Sound<'_>, change: u32, entry: u32, mode: u32) -> Option<u8>
    requires mode_value { first_failed (checks limits (decode view.bytes.now) (Lock change entry mode)) ≡ 0 }
    ensures lowest { unwrap_or result 0 ≡ in_the_way (decode view.entry.bytes.now) change entry mode }
    ensures numbered { IfSome result (λ c. 0 < c) }
{
    if let Some(holder) = lock_blocker(view, change, entry, mode) {
        return Some(holder);
    }
    let first = view.first_in_line(entry)?;
    if first == 0 {
        return None;
    }
    let own = u32::from(first) == change;
    if own {
        return None;
    }
    Some(first)
}

// The change is put at the end of the entry's line with its mode, or keeps its place there and takes the newer mode.
fn enter_line(w: &mut [u8; Window::SIZE], change: u32, entry: u32, mode: u32)
    requires w_value { sound_bytes w.old ≡ true }
    requires mode_value { first_failed (checks limits (decode w.old) (Lock change entry mode)) ≡ 0 }
    ensures { w.new ≡ encode (wait (decode w.old) change entry mode) }
{
    let count = Sound { bytes: &*w }.waiters();
    let standing = line::enter(
        &mut w[Line::AT..Locks::AT],
        count,
        change as u8,
        entry as u8,
        mode as u8,
    );
    Figure::Waiters.store(&mut w[Header::AT..Entries::AT], standing as u16);
}

// Who gets 0 leaves the line: a lock held covers the mode, or the lock is granted. Else the change waits.
pub fn lock(w: &mut [u8; Window::SIZE], change: u32, entry: u32, mode: u32) -> Reply
    requires w_value { sound_bytes w.old ≡ true }
    requires mode_value { first_failed (checks limits (decode w.old) (Lock change entry mode)) ≡ 0 }
    ensures { Gives (written (effect (decode w.old) (Lock change entry mode))) result w.new }
{
    let covered = mode <= u32::from(Sound { bytes: &*w }.held(entry, change));
    if covered {
        leave_line(w, change);
        return done(0);
    }
    if let Some(number) = in_the_way(Sound { bytes: &*w }, change, entry, mode) {
        enter_line(w, change, entry, mode);
        return blocked(u32::from(number));
    }
    leave_line(w, change);
    locks::grant(
        &mut w[Locks::AT..Permits::AT],
        entry as u8,
        change as u8,
        mode as u8,
    );
    done(0)
}
