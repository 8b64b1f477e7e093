// What a call that enters a record in a table does when it is not refused, on the bytes of a sound window. The numbers of changes and entries, operations and kinds that are not refused fit a byte.
#![tactic(auto)]

ghost use Rattle.std.specs.Prelude.{◌≡◌, true, false, ◌≤◌, ◌<◌, length};
ghost use Rattle.rules.specs.Base.{exceeds};
ghost use Rattle.rules.specs.Window.{limits, with_log, with_permits, with_ties};
ghost use Rattle.rules.specs.Locks.{make_permit, add_permit};
ghost use Rattle.rules.specs.Ties.{make_tie, add_tie};
ghost use Rattle.rules.specs.Calls.{Write, Permit, Depend};
ghost use Rattle.rules.specs.Effects.{effect, add_record};
ghost use Rattle.rules.specs.Refusals.{checks, first_failed};
ghost use Rattle.layout.specs.Codec.{decode, encode};
ghost use Rattle.layout.specs.Memory.{sound_bytes};
ghost use Rattle.replies.specs.Gives.{Gives, written};

use layout::{Changes, Entries, Header, Log, Permits, Ties, Window};
use places::header::Figure;
use places::store_value;
use reads::Sound;
use replies::{Reply, done};

// A record goes to the end of a log that has so many, and is counted.
fn log_record(w: &mut [u8; Window::SIZE], count: usize, change: u8, entry: u8, before: u32)
    requires w_value { sound_bytes w.old ≡ true }
    requires count_value { count ≡ length (decode w.old).log }
    requires count_bound { count < 2048 }
    ensures { w.new ≡ encode (with_log (decode w.old) (add_record change entry before (decode w.old).log)) }
{
    change_log::append(&mut w[Log::AT..], count, change, entry, before);
    Figure::Records.store(&mut w[Header::AT..Entries::AT], (count + 1) as u16);
}

// The old value goes into the log, then the new one is stored.
pub fn write(w: &mut [u8; Window::SIZE], change: u32, entry: u32, value: u32) -> Reply
    requires w_value { sound_bytes w.old ≡ true }
    requires value_value { first_failed (checks limits (decode w.old) (Write change entry value)) ≡ 0 }
    ensures { Gives (written (effect (decode w.old) (Write change entry value))) result w.new }
{
    let count = Sound { bytes: &*w }.records();
    let before = Sound { bytes: &*w }.value(entry);
    log_record(w, count, change as u8, entry as u8, before);
    store_value(&mut w[Entries::AT..Changes::AT], entry as u8, value);
    done(0)
}

// A permit is entered in a table that has so many, or united with the one that stands; they are counted.
fn enter_permit(
    w: &mut [u8; Window::SIZE],
    before: usize,
    giver: u8,
    taker: u8,
    entry: u8,
    operations: u8,
)
    requires w_value { sound_bytes w.old ≡ true }
    requires before_value { before ≡ length (decode w.old).permits }
    requires before_bound { before ≤ 1024 }
    requires permits_value { exceeds (length (add_permit (make_permit giver taker entry operations) (decode w.old).permits)) limits.permits ≡ false }
    ensures { w.new ≡ encode (with_permits (decode w.old) (add_permit (make_permit giver taker entry operations) (decode w.old).permits)) }
{
    let count = permits::add(
        &mut w[Permits::AT..Ties::AT],
        before,
        giver,
        taker,
        entry,
        operations,
    );
    Figure::Permits.store(&mut w[Header::AT..Entries::AT], count as u16);
}

// The permit is entered, or united with the one that stands.
pub fn permit(
    w: &mut [u8; Window::SIZE],
    giver: u32,
    taker: u32,
    entry: u32,
    operations: u32,
) -> Reply
    requires w_value { sound_bytes w.old ≡ true }
    requires operations_value { first_failed (checks limits (decode w.old) (Permit giver taker entry operations)) ≡ 0 }
    ensures { Gives (written (effect (decode w.old) (Permit giver taker entry operations))) result w.new }
{
    let before = Sound { bytes: &*w }.permits();
    enter_permit(
        w,
        before,
        giver as u8,
        taker as u8,
        entry as u8,
        operations as u8,
    );
    done(0)
}

// A tie is entered in a table that has so many, unless it stands; they are counted.
fn enter_tie(w: &mut [u8; Window::SIZE], before: usize, kind: u8, leader: u8, follower: u8)
    requires w_value { sound_bytes w.old ≡ true }
    requires before_value { before ≡ length (decode w.old).ties }
    requires before_bound { before ≤ 512 }
    requires ties_value { exceeds (length (add_tie (make_tie kind leader follower) (decode w.old).ties)) limits.ties ≡ false }
    ensures { w.new ≡ encode (with_ties (decode w.old) (add_tie (make_tie kind leader follower) (decode w.old).ties)) }
{
    let count = ties::add(&mut w[Ties::AT..Log::AT], before, kind, leader, follower);
    Figure::Ties.store(&mut w[Header::AT..Entries::AT], count as u16);
}

// The tie is entered, unless it stands.
pub fn depend(w: &mut [u8; Window::SIZE], kind: u32, leader: u32, follower: u32) -> Reply
    requires w_value { sound_bytes w.old ≡ true }
    requires follower_value { first_failed (checks limits (decode w.old) (Depend kind leader follower)) ≡ 0 }
    ensures { Gives (written (effect (decode w.old) (Depend kind leader follower))) result w.new }
{
    let before = Sound { bytes: &*w }.ties();
    enter_tie(w, before, kind as u8, leader as u8, follower as u8);
    done(0)
}
