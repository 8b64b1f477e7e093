// The fifteen calls on lent memory. Each contract says: answer, second number and every byte afterwards are those of `perform`.
// Read, status, parent and value take the memory only to read: every byte afterwards is the one at entry.
#![tactic(auto)]

ghost use Rattle.std.specs.Prelude.{◌≡◌};
ghost use Rattle.rules.specs.Window.{fresh};
ghost use Rattle.rules.specs.Calls.{Open, Initiate, Begin, Complete, Lock, Read, Write, Permit, Delegate, Depend, Commit, Abort, Status, Parent, Value};
ghost use Rattle.layout.specs.Codec.{encode};
ghost use Rattle.layout.specs.Memory.{perform};
ghost use Rattle.replies.specs.Gives.{Gives};

use cells::clear;
use layout::{Entries, Header, Window};
use places::header::Figure;
use reads::Sound;
use replies::{Refusal, Reply, done};
use soundness::sound_memory;

// A fresh window, whatever the bytes were.
fn make_fresh(w: &mut [u8; Window::SIZE], entries: u16)
    ensures { w.new ≡ encode (fresh entries) }
{
    clear(w, 0, Window::SIZE);
    Figure::Entries.store(&mut w[Header::AT..Entries::AT], entries);
}

// A fresh window of so many entries.
pub fn open(memory: &mut [u8], entries: u32) -> Reply
    ensures { Gives (perform memory.old (Open entries)) result memory.new }
{
    let short = memory.len() < Window::SIZE;
    if short {
        return Reply::from(Err(Refusal::UnsoundMemory));
    }
    if reads::outside(1, Entries::MOST as u32, entries) {
        return Reply::from(Err(Refusal::EntryCount));
    }
    let w = memory.first_chunk_mut::<{ Window::SIZE }>().unwrap();
    make_fresh(w, entries as u16);
    done(0)
}

// A new change, with its parent; the second number is its own.
pub fn initiate(memory: &mut [u8], parent: u32) -> Reply
    ensures { Gives (perform memory.old (Initiate parent)) result memory.new }
{
    if !sound_memory(memory) {
        return Reply::from(Err(Refusal::UnsoundMemory));
    }
    let w = memory.first_chunk_mut::<{ Window::SIZE }>().unwrap();
    Reply::from(steps::initiate(w, parent))
}

// An initiated change runs.
pub fn begin(memory: &mut [u8], change: u32) -> Reply
    ensures { Gives (perform memory.old (Begin change)) result memory.new }
{
    if !sound_memory(memory) {
        return Reply::from(Err(Refusal::UnsoundMemory));
    }
    let w = memory.first_chunk_mut::<{ Window::SIZE }>().unwrap();
    Reply::from(steps::begin(w, change))
}

// A running change is completed.
pub fn complete(memory: &mut [u8], change: u32) -> Reply
    ensures { Gives (perform memory.old (Complete change)) result memory.new }
{
    if !sound_memory(memory) {
        return Reply::from(Err(Refusal::UnsoundMemory));
    }
    let w = memory.first_chunk_mut::<{ Window::SIZE }>().unwrap();
    Reply::from(steps::complete(w, change))
}

// A lock on an entry, to read (1) or to write (2); where it is blocked the second number says who is in the way.
pub fn lock(memory: &mut [u8], change: u32, entry: u32, mode: u32) -> Reply
    ensures { Gives (perform memory.old (Lock change entry mode)) result memory.new }
{
    if !sound_memory(memory) {
        return Reply::from(Err(Refusal::UnsoundMemory));
    }
    let w = memory.first_chunk_mut::<{ Window::SIZE }>().unwrap();
    Reply::from(steps::lock(w, change, entry, mode))
}

// The value of an entry that the change holds.
pub fn read(memory: &[u8], change: u32, entry: u32) -> Reply
    ensures { Gives (perform memory.now (Read change entry)) result memory.now }
{
    if !sound_memory(memory) {
        return Reply::from(Err(Refusal::UnsoundMemory));
    }
    let bytes = memory.first_chunk::<{ Window::SIZE }>().unwrap();
    Reply::from(steps::read(Sound { bytes }, change, entry))
}

// A value for an entry that the change holds to write.
pub fn write(memory: &mut [u8], change: u32, entry: u32, value: u32) -> Reply
    ensures { Gives (perform memory.old (Write change entry value)) result memory.new }
{
    if !sound_memory(memory) {
        return Reply::from(Err(Refusal::UnsoundMemory));
    }
    let w = memory.first_chunk_mut::<{ Window::SIZE }>().unwrap();
    Reply::from(steps::write(w, change, entry, value))
}

// Leave for another change, or for anybody (0), to clash on an entry.
pub fn permit(memory: &mut [u8], giver: u32, taker: u32, entry: u32, operations: u32) -> Reply
    ensures { Gives (perform memory.old (Permit giver taker entry operations)) result memory.new }
{
    if !sound_memory(memory) {
        return Reply::from(Err(Refusal::UnsoundMemory));
    }
    let w = memory.first_chunk_mut::<{ Window::SIZE }>().unwrap();
    Reply::from(steps::permit(w, giver, taker, entry, operations))
}

// The work of one change on an entry, or on every entry (65,535), becomes another's.
pub fn delegate(memory: &mut [u8], from: u32, to: u32, entry: u32) -> Reply
    ensures { Gives (perform memory.old (Delegate from to entry)) result memory.new }
{
    if !sound_memory(memory) {
        return Reply::from(Err(Refusal::UnsoundMemory));
    }
    let w = memory.first_chunk_mut::<{ Window::SIZE }>().unwrap();
    Reply::from(handover::delegate(w, from, to, entry))
}

// A tie: to wait (1), to fall (2) or to go as a group (3).
pub fn depend(memory: &mut [u8], kind: u32, leader: u32, follower: u32) -> Reply
    ensures { Gives (perform memory.old (Depend kind leader follower)) result memory.new }
{
    if !sound_memory(memory) {
        return Reply::from(Err(Refusal::UnsoundMemory));
    }
    let w = memory.first_chunk_mut::<{ Window::SIZE }>().unwrap();
    Reply::from(steps::depend(w, kind, leader, follower))
}

// The change's whole group commits; the second number says how many, or who blocks it.
pub fn commit(memory: &mut [u8], change: u32) -> Reply
    ensures { Gives (perform memory.old (Commit change)) result memory.new }
{
    if !sound_memory(memory) {
        return Reply::from(Err(Refusal::UnsoundMemory));
    }
    let w = memory.first_chunk_mut::<{ Window::SIZE }>().unwrap();
    Reply::from(steps::commit(w, change))
}

// The change is aborted, with all that must end with it; the second number says how many.
pub fn abort(memory: &mut [u8], change: u32) -> Reply
    ensures { Gives (perform memory.old (Abort change)) result memory.new }
{
    if !sound_memory(memory) {
        return Reply::from(Err(Refusal::UnsoundMemory));
    }
    let w = memory.first_chunk_mut::<{ Window::SIZE }>().unwrap();
    Reply::from(steps::abort(w, change))
}

// The status of a change.
pub fn status(memory: &[u8], change: u32) -> Reply
    ensures { Gives (perform memory.now (Status change)) result memory.now }
{
    if !sound_memory(memory) {
        return Reply::from(Err(Refusal::UnsoundMemory));
    }
    let bytes = memory.first_chunk::<{ Window::SIZE }>().unwrap();
    Reply::from(steps::status(Sound { bytes }, change))
}

// The parent of a change.
pub fn parent(memory: &[u8], change: u32) -> Reply
    ensures { Gives (perform memory.now (Parent change)) result memory.now }
{
    if !sound_memory(memory) {
        return Reply::from(Err(Refusal::UnsoundMemory));
    }
    let bytes = memory.first_chunk::<{ Window::SIZE }>().unwrap();
    Reply::from(steps::parent(Sound { bytes }, change))
}

// The value of an entry.
pub fn value(memory: &[u8], entry: u32) -> Reply
    ensures { Gives (perform memory.now (Value entry)) result memory.now }
{
    if !sound_memory(memory) {
        return Reply::from(Err(Refusal::UnsoundMemory));
    }
    let bytes = memory.first_chunk::<{ Window::SIZE }>().unwrap();
    Reply::from(steps::value(Sound { bytes }, entry))
}
