// The first refusal of a call that names two changes, in checking order: read from a sound window's bytes.
#![tactic(auto)]

ghost use Rattle.std.specs.Prelude.{◌≡◌, true, false, not, ℕ, suc, ◌≤◌, ◌<◌, length, take};
ghost use Rattle.rules.specs.Base.{exceeds, outside as isOutside};
ghost use Rattle.rules.specs.Window.{limits};
ghost use Rattle.rules.specs.Locks.{make_permit, add_permit};
ghost use Rattle.rules.specs.Ties.{make_tie, add_tie, acyclic};
ghost use Rattle.rules.specs.Calls.{Permit, Delegate, Depend};
ghost use Rattle.rules.specs.Refusals.{checks, first_failed};
ghost use Rattle.layout.specs.Codec.{decode};
ghost use Rattle.replies.specs.Refused.{refused};

use layout::{Log, Permits, Ties};
use reads::{Sound, outside};
use replies::Refusal;

// For a delegate's entry: every entry.
pub const EVERY: u32 = 65535;

// The first five checks of permit: refusals 3 to 6.
fn permit_numbers(
    view: Sound<'_>,
    giver: u32,
    taker: u32,
    entry: u32,
    operations: u32,
) -> Result<(), Refusal>
    ensures { refused result ≡ first_failed (take 5 (checks limits (decode view.entry.bytes.now) (Permit giver taker entry operations))) }
{
    if view.no_change(giver) {
        return Err(Refusal::NoChange);
    }
    if (view.given() as u32) < taker {
        return Err(Refusal::NoChange);
    }
    if view.no_entry(entry) {
        return Err(Refusal::NoEntry);
    }
    if outside(1, 3, operations) {
        return Err(Refusal::NoSuchValue);
    }
    if giver == taker {
        return Err(Refusal::SameChange);
    }
    Ok(())
}

// Whether a permit can be added, with any operations.
fn permit_fits(view: Sound<'_>, giver: u32, taker: u32, entry: u32) -> bool
    requires giver_bound { (giver ≤ (decode view.bytes.now).given) × (taker ≤ (decode view.bytes.now).given) × (entry < (decode view.bytes.now).entries) }
    ensures { (o : ℕ) → result ≡ not (exceeds (length (add_permit (make_permit giver taker entry o) (decode view.entry.bytes.now).permits)) limits.permits) }
{
    let bytes = view.bytes;
    let count = view.permits();
    permits::fits(
        &bytes[Permits::AT..Ties::AT],
        count,
        giver as u8,
        taker as u8,
        entry as u8,
    )
}

// Permit.
pub fn permit(
    view: Sound<'_>,
    giver: u32,
    taker: u32,
    entry: u32,
    operations: u32,
) -> Result<(), Refusal>
    ensures { refused result ≡ first_failed (checks limits (decode view.entry.bytes.now) (Permit giver taker entry operations)) }
{
    permit_numbers(view, giver, taker, entry, operations)?;
    if !view.is_live(giver) {
        return Err(Refusal::Status);
    }
    if !((taker == 0) | view.is_live(taker)) {
        return Err(Refusal::Status);
    }
    if !permit_fits(view, giver, taker, entry) {
        return Err(Refusal::NoRoom);
    }
    Ok(())
}

// Delegate, but for its last check: refusal 10 is judged on what the hand-over would leave.
pub fn delegate(view: Sound<'_>, from: u32, to: u32, entry: u32) -> Result<(), Refusal>
    ensures { refused result ≡ first_failed (take 5 (checks limits (decode view.entry.bytes.now) (Delegate from to entry))) }
{
    if view.no_change(from) {
        return Err(Refusal::NoChange);
    }
    if view.no_change(to) {
        return Err(Refusal::NoChange);
    }
    if (entry != EVERY) & view.no_entry(entry) {
        return Err(Refusal::NoEntry);
    }
    if from == to {
        return Err(Refusal::SameChange);
    }
    if !(view.is_live(from) & view.is_live(to)) {
        return Err(Refusal::Status);
    }
    Ok(())
}

// The first four checks of depend: refusals 3 to 6.
fn depend_numbers(view: Sound<'_>, kind: u32, leader: u32, follower: u32) -> Result<(), Refusal>
    ensures { refused result ≡ first_failed (take 4 (checks limits (decode view.entry.bytes.now) (Depend kind leader follower))) }
{
    if view.no_change(leader) {
        return Err(Refusal::NoChange);
    }
    if view.no_change(follower) {
        return Err(Refusal::NoChange);
    }
    if outside(1, 3, kind) {
        return Err(Refusal::NoSuchValue);
    }
    if leader == follower {
        return Err(Refusal::SameChange);
    }
    Ok(())
}

// Whether a new tie would let a path of arrows return to its group.
fn tie_returns(view: Sound<'_>, kind: u32, leader: u32, follower: u32) -> bool
    requires kind_value { (isOutside 1 3 kind ≡ false) × (leader ≤ (decode view.bytes.now).given) × (follower ≤ (decode view.bytes.now).given) }
    ensures { result ≡ not (acyclic (suc (decode view.entry.bytes.now).given) (add_tie (make_tie kind leader follower) (decode view.entry.bytes.now).ties)) }
{
    let bytes = view.bytes;
    let count = view.ties();
    graph::returns(
        &bytes[Ties::AT..Log::AT],
        count,
        kind as u8,
        leader as u8,
        follower as u8,
    )
}

// Whether a tie can be added.
fn tie_fits(view: Sound<'_>, kind: u32, leader: u32, follower: u32) -> bool
    requires kind_value { (isOutside 1 3 kind ≡ false) × (leader ≤ (decode view.bytes.now).given) × (follower ≤ (decode view.bytes.now).given) }
    ensures { result ≡ not (exceeds (length (add_tie (make_tie kind leader follower) (decode view.entry.bytes.now).ties)) limits.ties) }
{
    let bytes = view.bytes;
    let count = view.ties();
    ties::fits(
        &bytes[Ties::AT..Log::AT],
        count,
        kind as u8,
        leader as u8,
        follower as u8,
    )
}

// Depend.
pub fn depend(view: Sound<'_>, kind: u32, leader: u32, follower: u32) -> Result<(), Refusal>
    ensures { refused result ≡ first_failed (checks limits (decode view.entry.bytes.now) (Depend kind leader follower)) }
{
    depend_numbers(view, kind, leader, follower)?;
    if !(view.is_live(leader) & view.is_live(follower)) {
        return Err(Refusal::Status);
    }
    if tie_returns(view, kind, leader, follower) {
        return Err(Refusal::Returns);
    }
    if !tie_fits(view, kind, leader, follower) {
        return Err(Refusal::NoRoom);
    }
    Ok(())
}
