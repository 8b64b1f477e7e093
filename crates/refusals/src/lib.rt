// The first refusal of a call that names one change or one entry, in checking order: read from a sound window's bytes.
#![tactic(auto)]

ghost use Rattle.std.specs.Prelude.{◌≡◌, true, not, [], ◌∷◌, ℕ, eqb, length, take};
ghost use Rattle.rules.specs.Window.{limits, no_change};
ghost use Rattle.rules.specs.Calls.{Initiate, Begin, Complete, Lock, Read, Write, Value};
ghost use Rattle.rules.specs.Refusals.{◌if◌, checks, first_failed};
ghost use Rattle.layout.specs.Codec.{decode};
ghost use Rattle.replies.specs.Refused.{refused};
ghost use Rattle.refusals.specs.Shared.{ChangeRefusal};

use layout::{Changes, Log};
use reads::{Sound, outside};
use replies::Refusal;

// Commit, abort, status and parent.
pub fn change(view: Sound<'_>, change: u32) -> Result<(), Refusal>
    ensures { ChangeRefusal (decode view.entry.bytes.now) change (refused result) }
{
    if view.no_change(change) {
        return Err(Refusal::NoChange);
    }
    Ok(())
}

// Value.
pub fn value(view: Sound<'_>, entry: u32) -> Result<(), Refusal>
    ensures { refused result ≡ first_failed (checks limits (decode view.entry.bytes.now) (Value entry)) }
{
    if view.no_entry(entry) {
        return Err(Refusal::NoEntry);
    }
    Ok(())
}

// Initiate.
pub fn initiate(view: Sound<'_>, parent: u32) -> Result<(), Refusal>
    ensures { refused result ≡ first_failed (checks limits (decode view.entry.bytes.now) (Initiate parent)) }
{
    let n = view.given();
    if (n as u32) < parent {
        return Err(Refusal::NoChange);
    }
    if !((parent == 0) | view.is_running(parent)) {
        return Err(Refusal::Status);
    }
    let full = Changes::MOST <= n;
    if full {
        return Err(Refusal::NoRoom);
    }
    Ok(())
}

// The checks of begin and complete: there is the change, and its status is s.
fn in_status(view: Sound<'_>, change: u32, s: u8) -> Result<(), Refusal>
    ensures { refused result ≡ first_failed (3 if no_change (decode view.entry.bytes.now) change ∷ 7 if not (eqb ((decode view.entry.bytes.now).status change) s) ∷ []) }
{
    if view.no_change(change) {
        return Err(Refusal::NoChange);
    }
    if view.status(change) != s {
        return Err(Refusal::Status);
    }
    Ok(())
}

// Begin.
pub fn begin(view: Sound<'_>, change: u32) -> Result<(), Refusal>
    ensures { refused result ≡ first_failed (checks limits (decode view.entry.bytes.now) (Begin change)) }
{
    in_status(view, change, 1)
}

// Complete.
pub fn complete(view: Sound<'_>, change: u32) -> Result<(), Refusal>
    ensures { refused result ≡ first_failed (checks limits (decode view.entry.bytes.now) (Complete change)) }
{
    in_status(view, change, 2)
}

// Lock.
pub fn lock(view: Sound<'_>, change: u32, entry: u32, mode: u32) -> Result<(), Refusal>
    ensures { refused result ≡ first_failed (checks limits (decode view.entry.bytes.now) (Lock change entry mode)) }
{
    if view.no_change(change) {
        return Err(Refusal::NoChange);
    }
    if view.no_entry(entry) {
        return Err(Refusal::NoEntry);
    }
    if outside(1, 2, mode) {
        return Err(Refusal::NoSuchValue);
    }
    if !view.is_running(change) {
        return Err(Refusal::Status);
    }
    let elsewhere = view.waits_elsewhere(change, entry);
    if elsewhere {
        return Err(Refusal::WaitsElsewhere);
    }
    Ok(())
}

// The first checks of read and write: there are the change and the entry, and the change runs.
fn on_entry(view: Sound<'_>, change: u32, entry: u32) -> Result<(), Refusal>
    ensures { refused result ≡ first_failed (take 3 (checks limits (decode view.entry.bytes.now) (Read change entry))) }
{
    if view.no_change(change) {
        return Err(Refusal::NoChange);
    }
    if view.no_entry(entry) {
        return Err(Refusal::NoEntry);
    }
    if !view.is_running(change) {
        return Err(Refusal::Status);
    }
    Ok(())
}

// Read.
pub fn read(view: Sound<'_>, change: u32, entry: u32) -> Result<(), Refusal>
    ensures { refused result ≡ first_failed (checks limits (decode view.entry.bytes.now) (Read change entry)) }
{
    on_entry(view, change, entry)?;
    let none: u8 = 0;
    if view.held(entry, change) == none {
        return Err(Refusal::NoLock);
    }
    Ok(())
}

// Write, whatever the value.
pub fn write(view: Sound<'_>, change: u32, entry: u32) -> Result<(), Refusal>
    ensures { (v : ℕ) → refused result ≡ first_failed (checks limits (decode view.entry.bytes.now) (Write change entry v)) }
{
    on_entry(view, change, entry)?;
    let write: u8 = 2;
    if view.held(entry, change) != write {
        return Err(Refusal::NoLock);
    }
    let full = Log::MOST <= view.records();
    if full {
        return Err(Refusal::NoRoom);
    }
    Ok(())
}
