// The call delegate on a window's bytes: log ownership, locks and given permits go from one change to another.
#![tactic(auto)]

ghost use Rattle.std.specs.Prelude.{◌≡◌, true, cond};
ghost use Rattle.rules.specs.Window.{limits, live};
ghost use Rattle.rules.specs.Locks.{clashes_permitted};
ghost use Rattle.rules.specs.Calls.{Delegate};
ghost use Rattle.rules.specs.Effects.{hand_over};
ghost use Rattle.rules.specs.Refusals.{step};
ghost use Rattle.layout.specs.Codec.{decode, encode};
ghost use Rattle.layout.specs.Memory.{sound_bytes};
ghost use Rattle.scope.specs.Entries.{entries_of};
ghost use Rattle.replies.specs.Gives.{Gives, written};
ghost use Rattle.replies.specs.Refused.{refused, reply_of};

use handed::Draft;
use layout::{Locks, Permits, Window};
use reads::Sound;
use replies::{Refusal, Reply, done};
use scope::{HandOver, Scope};

// The hand-over on the whole window, unless some clashing pair would have no permit after it.
fn hand_over(w: &mut [u8; Window::SIZE], over: HandOver) -> Result<(), Refusal>
    requires w_value { sound_bytes w.old ≡ true }
    requires to_value { live (decode w.old) over.to ≡ true }
    ensures value { refused result ≡ cond (clashes_permitted (hand_over (decode w.old) over.from over.to (entries_of over.scope))) 0 10 }
    ensures w_after { w.new ≡ cond (clashes_permitted (hand_over (decode w.old) over.from over.to (entries_of over.scope))) (encode (hand_over (decode w.old) over.from over.to (entries_of over.scope))) w.old }
{
    let mut draft = Draft {
        locks: [0; Locks::SIZE],
        permits: [0; Permits::SIZE],
        entries: 0,
        count: 0,
    };
    let view = Sound { bytes: &*w };
    draft.hand_over(view, over);
    if !draft.all_permitted() {
        return Err(Refusal::NoPermit);
    }
    draft.put_into(w, over);
    Ok(())
}

// Moves log ownership, locks and the permits that `from` has given, on an entry or on every entry.
pub fn delegate(
    w: &mut [u8; Window::SIZE],
    from: u32,
    to: u32,
    entry: u32,
) -> Result<Reply, Refusal>
    requires { sound_bytes w.old ≡ true }
    ensures { Gives (written (step limits (decode w.old) (Delegate from to entry))) (reply_of result) w.new }
{
    let view = Sound { bytes: &*w };
    pair_refusals::delegate(view, from, to, entry)?;
    let scope = Scope::named(entry);
    let over = HandOver {
        from: from as u8,
        to: to as u8,
        scope,
    };
    hand_over(w, over)?;
    Ok(done(0))
}
