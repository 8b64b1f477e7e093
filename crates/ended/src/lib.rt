// What becomes of a window when a set of changes ends: all that they have in the tables is gone; and, for an abort, their log records are withdrawn.
#![tactic(auto)]

ghost use Rattle.std.specs.Prelude.{◌≡◌, true, ◌≤◌, length};
ghost use Rattle.rules.specs.Sets.{put_all};
ghost use Rattle.rules.specs.Window.{Window as WindowOf, with_status, with_held, with_log, with_permits, with_ties, with_line};
ghost use Rattle.rules.specs.Line.{line_left};
ghost use Rattle.rules.specs.Effects.{released, unowned, permits_left, ties_left, end_all, withdraw as withdrawn};
ghost use Rattle.layout.specs.Codec.{decode, encode};
ghost use Rattle.layout.specs.Memory.{sound_bytes};
ghost use Rattle.sets.specs.Members.{members};
ghost use Rattle.locks.specs.Held.{NoneFrom};

use layout::{Changes, Entries, Header, Line, Locks, Log, Permits, Ties, Window};
use places::changes::Status;
use places::header::Figure;
use reads::Sound;
use sets::ChangeSet;

// The log records of ended changes go.
fn drop_log(w: &mut [u8; Window::SIZE], ended: ChangeSet)
    requires w_value { sound_bytes w.old ≡ true }
    ensures w_after { w.new ≡ encode (with_log (decode w.old) (unowned (members ended) (decode w.old).log)) }
    ensures w_after_2 { sound_bytes w.new ≡ true }
{
    let count = Sound { bytes: &*w }.records();
    let left = change_log::drop_owned(&mut w[Log::AT..], count, ended);
    Figure::Records.store(&mut w[Header::AT..Entries::AT], left as u16);
}

// The log records of ended changes are withdrawn, in a copy of the values.
fn withdraw(w: &mut [u8; Window::SIZE], ended: ChangeSet)
    requires w_value { sound_bytes w.old ≡ true }
    ensures w_after { w.new ≡ encode (withdrawn (members ended) (decode w.old)) }
    ensures w_after_2 { sound_bytes w.new ≡ true }
{
    let records = Sound { bytes: &*w }.records();
    let mut values = [0u8; Entries::SIZE];
    values.copy_from_slice(&w[Entries::AT..Changes::AT]);
    let left = change_log::withdraw(&mut values, &mut w[Log::AT..], records, ended);
    w[Entries::AT..Changes::AT].copy_from_slice(&values);
    Figure::Records.store(&mut w[Header::AT..Entries::AT], left as u16);
}

// The permits that ended changes gave or received go.
fn drop_permits(w: &mut [u8; Window::SIZE], count: usize, ended: ChangeSet)
    requires count_bound { count ≤ 1024 }
    ensures { (W : WindowOf) → count ≡ length W.permits → w.old ≡ encode W → w.new ≡ encode (with_permits W (permits_left (members ended) W.permits)) }
{
    let left = permits::drop_ended(&mut w[Permits::AT..Ties::AT], count, ended);
    Figure::Permits.store(&mut w[Header::AT..Entries::AT], left as u16);
}

// The ties that ended changes lead or follow go.
fn drop_ties(w: &mut [u8; Window::SIZE], count: usize, ended: ChangeSet)
    requires count_bound { count ≤ 512 }
    ensures { (W : WindowOf) → count ≡ length W.ties → w.old ≡ encode W → w.new ≡ encode (with_ties W (ties_left (members ended) W.ties)) }
{
    let left = ties::drop_ended(&mut w[Ties::AT..Log::AT], count, ended);
    Figure::Ties.store(&mut w[Header::AT..Entries::AT], left as u16);
}

// Ended changes leave the line.
fn drop_line(w: &mut [u8; Window::SIZE], count: usize, ended: ChangeSet)
    requires count_bound { count ≤ 255 }
    ensures { (W : WindowOf) → count ≡ length W.line → w.old ≡ encode W → w.new ≡ encode (with_line W (line_left (members ended) W.line)) }
{
    let left = line::drop_all(&mut w[Line::AT..Locks::AT], count, ended);
    Figure::Waiters.store(&mut w[Header::AT..Entries::AT], left as u16);
}

// Ended changes get their last status, and their locks go.
fn set_ended(w: &mut [u8; Window::SIZE], entries: usize, ended: ChangeSet, how: u8)
    requires entries_bound { entries ≤ 256 }
    ensures { (W : WindowOf) → NoneFrom entries W.held → w.old ≡ encode W → w.new ≡ encode (with_held (with_status W (put_all (members ended) how W.status)) (released (members ended) W.held)) }
{
    places::set_statuses(&mut w[Changes::AT..Line::AT], ended, how);
    locks::release(&mut w[Locks::AT..Permits::AT], entries, ended);
}

// Changes end, as committed or aborted, but for the log.
fn end_rest(w: &mut [u8; Window::SIZE], ended: ChangeSet, how: u8)
    requires w_value { sound_bytes w.old ≡ true }
    ensures { w.new ≡ encode (with_log (end_all how (members ended) (decode w.old)) (decode w.old).log) }
{
    // The figures are read first: once permits are dropped the bytes need not be sound.
    let view = Sound { bytes: &*w };
    let entries = view.entries();
    let permits = view.permits();
    let ties = view.ties();
    let waiters = view.waiters();
    drop_permits(w, permits, ended);
    drop_ties(w, ties, ended);
    drop_line(w, waiters, ended);
    set_ended(w, entries, ended, how);
}

// Changes end as committed.
pub fn commit_all(w: &mut [u8; Window::SIZE], ended: ChangeSet)
    requires w_value { sound_bytes w.old ≡ true }
    ensures { w.new ≡ encode (end_all 4 (members ended) (decode w.old)) }
{
    drop_log(w, ended);
    end_rest(w, ended, Status::Committed as u8);
}

// Changes end as aborted.
pub fn abort_all(w: &mut [u8; Window::SIZE], ended: ChangeSet)
    requires w_value { sound_bytes w.old ≡ true }
    ensures { w.new ≡ encode (end_all 5 (members ended) (withdrawn (members ended) (decode w.old))) }
{
    withdraw(w, ended);
    end_rest(w, ended, Status::Aborted as u8);
}
