// Each call but open and delegate on a sound window's bytes: the first refusal that applies, or what the call does.
#![tactic(auto)]

ghost use Rattle.std.specs.Prelude.{◌≡◌, true};
ghost use Rattle.rules.specs.Window.{limits};
ghost use Rattle.rules.specs.Calls.{Initiate, Begin, Complete, Lock, Read, Write, Permit, Depend, Commit, Abort, Status, Parent, Value};
ghost use Rattle.rules.specs.Refusals.{step};
ghost use Rattle.layout.specs.Codec.{decode};
ghost use Rattle.layout.specs.Memory.{sound_bytes};
ghost use Rattle.replies.specs.Gives.{Gives, written};
ghost use Rattle.replies.specs.Refused.{reply_of};

use layout::Window;
use reads::Sound;
use replies::{Refusal, Reply, done};

// A new change, with its parent.
pub fn initiate(w: &mut [u8; Window::SIZE], parent: u32) -> Result<Reply, Refusal>
    requires { sound_bytes w.old ≡ true }
    ensures { Gives (written (step limits (decode w.old) (Initiate parent))) (reply_of result) w.new }
{
    let view = Sound { bytes: &*w };
    refusals::initiate(view, parent)?;
    Ok(effects::initiate(w, parent))
}

// 1 becomes 2.
pub fn begin(w: &mut [u8; Window::SIZE], change: u32) -> Result<Reply, Refusal>
    requires { sound_bytes w.old ≡ true }
    ensures { Gives (written (step limits (decode w.old) (Begin change))) (reply_of result) w.new }
{
    let view = Sound { bytes: &*w };
    refusals::begin(view, change)?;
    Ok(effects::begin(w, change))
}

// 2 becomes 3.
pub fn complete(w: &mut [u8; Window::SIZE], change: u32) -> Result<Reply, Refusal>
    requires { sound_bytes w.old ≡ true }
    ensures { Gives (written (step limits (decode w.old) (Complete change))) (reply_of result) w.new }
{
    let view = Sound { bytes: &*w };
    refusals::complete(view, change)?;
    Ok(effects::complete(w, change))
}

// A lock: covered, granted, or blocked and put in line.
pub fn lock(
    w: &mut [u8; Window::SIZE],
    change: u32,
    entry: u32,
    mode: u32,
) -> Result<Reply, Refusal>
    requires { sound_bytes w.old ≡ true }
    ensures { Gives (written (step limits (decode w.old) (Lock change entry mode))) (reply_of result) w.new }
{
    let view = Sound { bytes: &*w };
    refusals::lock(view, change, entry, mode)?;
    Ok(locking::lock(w, change, entry, mode))
}

// The value of an entry, for a change that holds a lock on it.
pub fn read(view: Sound<'_>, change: u32, entry: u32) -> Result<Reply, Refusal>
    ensures { Gives (written (step limits (decode view.entry.bytes.now) (Read change entry))) (reply_of result) view.entry.bytes.now }
{
    refusals::read(view, change, entry)?;
    Ok(done(view.value(entry)))
}

// The old value is logged, the new one stored.
pub fn write(
    w: &mut [u8; Window::SIZE],
    change: u32,
    entry: u32,
    value: u32,
) -> Result<Reply, Refusal>
    requires { sound_bytes w.old ≡ true }
    ensures { Gives (written (step limits (decode w.old) (Write change entry value))) (reply_of result) w.new }
{
    let view = Sound { bytes: &*w };
    refusals::write(view, change, entry)?;
    Ok(records::write(w, change, entry, value))
}

// A permit, or one united with that which stands.
pub fn permit(
    w: &mut [u8; Window::SIZE],
    giver: u32,
    taker: u32,
    entry: u32,
    operations: u32,
) -> Result<Reply, Refusal>
    requires { sound_bytes w.old ≡ true }
    ensures { Gives (written (step limits (decode w.old) (Permit giver taker entry operations))) (reply_of result) w.new }
{
    let view = Sound { bytes: &*w };
    pair_refusals::permit(view, giver, taker, entry, operations)?;
    Ok(records::permit(w, giver, taker, entry, operations))
}

// A tie, unless it stands.
pub fn depend(
    w: &mut [u8; Window::SIZE],
    kind: u32,
    leader: u32,
    follower: u32,
) -> Result<Reply, Refusal>
    requires { sound_bytes w.old ≡ true }
    ensures { Gives (written (step limits (decode w.old) (Depend kind leader follower))) (reply_of result) w.new }
{
    let view = Sound { bytes: &*w };
    pair_refusals::depend(view, kind, leader, follower)?;
    Ok(records::depend(w, kind, leader, follower))
}

// The whole group becomes committed, unless something blocks it.
pub fn commit(w: &mut [u8; Window::SIZE], change: u32) -> Result<Reply, Refusal>
    requires { sound_bytes w.old ≡ true }
    ensures { Gives (written (step limits (decode w.old) (Commit change))) (reply_of result) w.new }
{
    let view = Sound { bytes: &*w };
    refusals::change(view, change)?;
    Ok(endings::commit(w, change))
}

// The change and all that must end with it are withdrawn and aborted.
pub fn abort(w: &mut [u8; Window::SIZE], change: u32) -> Result<Reply, Refusal>
    requires { sound_bytes w.old ≡ true }
    ensures { Gives (written (step limits (decode w.old) (Abort change))) (reply_of result) w.new }
{
    let view = Sound { bytes: &*w };
    refusals::change(view, change)?;
    Ok(endings::abort(w, change))
}

// The status of a change.
pub fn status(view: Sound<'_>, change: u32) -> Result<Reply, Refusal>
    ensures { Gives (written (step limits (decode view.entry.bytes.now) (Status change))) (reply_of result) view.entry.bytes.now }
{
    refusals::change(view, change)?;
    Ok(done(u32::from(view.status(change))))
}

// The parent of a change.
pub fn parent(view: Sound<'_>, change: u32) -> Result<Reply, Refusal>
    ensures { Gives (written (step limits (decode view.entry.bytes.now) (Parent change))) (reply_of result) view.entry.bytes.now }
{
    refusals::change(view, change)?;
    Ok(done(u32::from(view.parent(change))))
}

// The value of an entry.
pub fn value(view: Sound<'_>, entry: u32) -> Result<Reply, Refusal>
    ensures { Gives (written (step limits (decode view.entry.bytes.now) (Value entry))) (reply_of result) view.entry.bytes.now }
{
    refusals::value(view, entry)?;
    Ok(done(view.value(entry)))
}
