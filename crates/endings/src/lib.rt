// Commit and abort on the bytes of a sound window, when the call is not refused.
#![tactic(auto)]

ghost use Rattle.std.specs.Prelude.{◌≡◌, true, ℕ, length};
ghost use Rattle.rules.specs.Window.{limits};
ghost use Rattle.rules.specs.Calls.{Commit, Abort};
ghost use Rattle.rules.specs.Effects.{commit_blockers, effect};
ghost use Rattle.rules.specs.Refusals.{checks, first_failed};
ghost use Rattle.layout.specs.Codec.{decode};
ghost use Rattle.layout.specs.Memory.{sound_bytes};
ghost use Rattle.sets.specs.Members.{members};
ghost use Rattle.replies.specs.Gives.{Gives, written};

use ended::{abort_all, commit_all};
use layout::{Changes, Line, Log, Ties, Window};
use places::changes::Status;
use reads::Sound;
use replies::Reply;
use sets::ChangeSet;

// What holds up the commit of a group: its members that are not completed, and the leaders of wait or fall ties to a member.
fn blockers(view: Sound<'_>, group: ChangeSet) -> ChangeSet
    ensures { (k : ℕ) → members result k ≡ commit_blockers (decode view.entry.bytes.now) (members group) k }
{
    let w = view.bytes;
    let given = view.given();
    let completed = places::with_status(&w[Changes::AT..Line::AT], given, Status::Completed as u8);
    let unfinished = group.minus(completed);
    let ties = view.ties();
    let leaders = graph::leaders(&w[Ties::AT..Log::AT], ties, group);
    unfinished.unite(leaders)
}

// Commit: the change's whole group ends, unless something holds it up.
pub fn commit(w: &mut [u8; Window::SIZE], change: u32) -> Reply
    requires w_value { sound_bytes w.old ≡ true }
    requires change_value { first_failed (checks limits (decode w.old) (Commit change)) ≡ 0 }
    ensures { Gives (written (effect (decode w.old) (Commit change))) result w.new }
{
    let status = Sound { bytes: &*w }.status(change);
    if status == Status::Committed as u8 {
        return replies::done(0);
    }
    if status == Status::Aborted as u8 {
        return replies::unchanged(21);
    }
    let ties = Sound { bytes: &*w }.ties();
    let group = graph::group(&w[Ties::AT..Log::AT], ties, change as u8);
    let blockers = blockers(Sound { bytes: &*w }, group);
    if let Some(blocker) = blockers.first() {
        return replies::blocked(u32::from(blocker));
    }
    commit_all(w, group);
    replies::done(group.count())
}

// Abort: the change ends with all that it takes along, and their log records are withdrawn.
pub fn abort(w: &mut [u8; Window::SIZE], change: u32) -> Reply
    requires w_value { sound_bytes w.old ≡ true }
    requires change_value { first_failed (checks limits (decode w.old) (Abort change)) ≡ 0 }
    ensures { Gives (written (effect (decode w.old) (Abort change))) result w.new }
{
    let status = Sound { bytes: &*w }.status(change);
    if status == Status::Aborted as u8 {
        return replies::done(0);
    }
    if status == Status::Committed as u8 {
        return replies::unchanged(21);
    }
    let ties = Sound { bytes: &*w }.ties();
    let ended = graph::end_set(&w[Ties::AT..Log::AT], ties, change as u8);
    abort_all(w, ended);
    replies::done(ended.count())
}
