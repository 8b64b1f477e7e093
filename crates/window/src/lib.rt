// The calls for C programs: a name for each, on the memory lent as a window. include/window.h says what they mean, docs/WINDOW.md what the bytes are.
// Read, status, parent and value take the memory only to read.
#![tactic(auto)]

ghost use Rattle.rules.specs.Calls.{Open, Initiate, Begin, Complete, Lock, Read, Write, Permit, Delegate, Depend, Commit, Abort, Status, Parent, Value};
ghost use Rattle.layout.specs.Memory.{perform};
ghost use Rattle.replies.specs.Gives.{Gives};

use replies::Reply;

// A fresh window of so many entries.
#[unsafe(no_mangle)]
pub extern "C" fn window_open(window: &mut [u8], entries: u32) -> Reply
    ensures { Gives (perform window.old (Open entries)) result window.new }
{
    calls::open(window, entries)
}

// A new change, with its parent; the second number is its own.
#[unsafe(no_mangle)]
pub extern "C" fn window_initiate(window: &mut [u8], parent: u32) -> Reply
    ensures { Gives (perform window.old (Initiate parent)) result window.new }
{
    calls::initiate(window, parent)
}

// An initiated change runs.
#[unsafe(no_mangle)]
pub extern "C" fn window_begin(window: &mut [u8], change: u32) -> Reply
    ensures { Gives (perform window.old (Begin change)) result window.new }
{
    calls::begin(window, change)
}

// A running change is completed.
#[unsafe(no_mangle)]
pub extern "C" fn window_complete(window: &mut [u8], change: u32) -> Reply
    ensures { Gives (perform window.old (Complete change)) result window.new }
{
    calls::complete(window, change)
}

// A lock on an entry, to read (1) or to write (2); where it is blocked the second number says who is in the way.
#[unsafe(no_mangle)]
pub extern "C" fn window_lock(window: &mut [u8], change: u32, entry: u32, mode: u32) -> Reply
    ensures { Gives (perform window.old (Lock change entry mode)) result window.new }
{
    calls::lock(window, change, entry, mode)
}

// The value of an entry that the change holds.
#[unsafe(no_mangle)]
pub extern "C" fn window_read(window: &[u8], change: u32, entry: u32) -> Reply
    ensures { Gives (perform window.now (Read change entry)) result window.now }
{
    calls::read(window, change, entry)
}

// A value for an entry that the change holds to write.
#[unsafe(no_mangle)]
pub extern "C" fn window_write(window: &mut [u8], change: u32, entry: u32, value: u32) -> Reply
    ensures { Gives (perform window.old (Write change entry value)) result window.new }
{
    calls::write(window, change, entry, value)
}

// Leave for another change, or for anybody (0), to clash on an entry.
#[unsafe(no_mangle)]
pub extern "C" fn window_permit(
    window: &mut [u8],
    giver: u32,
    taker: u32,
    entry: u32,
    operations: u32,
) -> Reply
    ensures { Gives (perform window.old (Permit giver taker entry operations)) result window.new }
{
    calls::permit(window, giver, taker, entry, operations)
}

// The work of one change on an entry, or on every entry (65,535), becomes another's.
#[unsafe(no_mangle)]
pub extern "C" fn window_delegate(window: &mut [u8], from: u32, to: u32, entry: u32) -> Reply
    ensures { Gives (perform window.old (Delegate from to entry)) result window.new }
{
    calls::delegate(window, from, to, entry)
}

// A tie: to wait (1), to fall (2) or to go as a group (3).
#[unsafe(no_mangle)]
pub extern "C" fn window_depend(window: &mut [u8], kind: u32, leader: u32, follower: u32) -> Reply
    ensures { Gives (perform window.old (Depend kind leader follower)) result window.new }
{
    calls::depend(window, kind, leader, follower)
}

// The change's whole group commits; the second number says how many, or who blocks it.
#[unsafe(no_mangle)]
pub extern "C" fn window_commit(window: &mut [u8], change: u32) -> Reply
    ensures { Gives (perform window.old (Commit change)) result window.new }
{
    calls::commit(window, change)
}

// The change is aborted, with all that must end with it; the second number says how many.
#[unsafe(no_mangle)]
pub extern "C" fn window_abort(window: &mut [u8], change: u32) -> Reply
    ensures { Gives (perform window.old (Abort change)) result window.new }
{
    calls::abort(window, change)
}

// The status of a change.
#[unsafe(no_mangle)]
pub extern "C" fn window_status(window: &[u8], change: u32) -> Reply
    ensures { Gives (perform window.now (Status change)) result window.now }
{
    calls::status(window, change)
}

// The parent of a change.
#[unsafe(no_mangle)]
pub extern "C" fn window_parent(window: &[u8], change: u32) -> Reply
    ensures { Gives (perform window.now (Parent change)) result window.now }
{
    calls::parent(window, change)
}

// The value of an entry.
#[unsafe(no_mangle)]
pub extern "C" fn window_value(window: &[u8], entry: u32) -> Reply
    ensures { Gives (perform window.now (Value entry)) result window.now }
{
    calls::value(window, entry)
}
