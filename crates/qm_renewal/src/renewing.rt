// The key of a job that changed goes from its place in a row to its new one, comes, or goes.
ghost use Rattle.std.specs.Prelude.{◌≡◌, ◌<◌, ◌==◌, ℕ, if◌then◌else◌, IfSome, Some, None};
ghost use Rattle.qm_model.specs.JobStates.{is_pending};
ghost use Rattle.qm_ready.specs.Rows.{HasNumbersOnce, key_numbered};
ghost use Rattle.qm_renewal.specs.Renewing.{pending_key, room_of};

use qm_kinds::{Entry, EntryState};
use qm_match::Key;
use qm_ready::ReadyRow;

/// That no number stands twice in a row. It costs nothing.
pub fn see_row(row: &ReadyRow)
    ensures { HasNumbersOnce row.now.keys }
{
    let _ = row.len();
}

/// Whether a job waits for nothing but its start.
pub fn is_pending(state: &EntryState) -> bool
    ensures { result ≡ is_pending state.now }
{
    matches!(state, EntryState::Pending)
}

/// The key of a job, where it waits for nothing but its start: no row has one of another job.
pub fn key_of_pending(entry: &Entry) -> Option<Key>
    ensures { result ≡ pending_key entry.now }
{
    if is_pending(&entry.state) {
        Some(Key::of(entry))
    } else {
        None
    }
}

/// Puts a key into a row, in the place of the old one where that is there. The old one has its number.
pub fn put_in(row: &mut ReadyRow, old: &Option<Key>, key: Key)
    requires old { IfSome (key_numbered key.number row.old.keys) (λ k. old.now ≡ Some k) }
    requires number { IfSome old.now (λ k. k.number ≡ key.number) }
    requires room { key_numbered key.number row.old.keys ≡ None → 0 < row.old.spare }
    ensures schedule { row.new.schedule ≡ row.old.schedule }
    ensures each { (number : ℕ) → key_numbered number row.new.keys
        ≡ (if key.number == number then Some key else key_numbered number row.old.keys) }
    ensures room { room_of row.new ≡ room_of row.old }
{
    if let Some(old) = old {
        if row.replace(old, key) {
            return;
        }
    }
    row.insert(key);
}

/// Takes the old key of a job out of a row, where it is there.
pub fn take_out(row: &mut ReadyRow, old: &Option<Key>, number: u32)
    requires old { IfSome (key_numbered number row.old.keys) (λ k. old.now ≡ Some k) }
    requires number { IfSome old.now (λ k. k.number ≡ number) }
    ensures schedule { row.new.schedule ≡ row.old.schedule }
    ensures each { (m : ℕ) → key_numbered m row.new.keys
        ≡ (if number == m then None else key_numbered m row.old.keys) }
    ensures room { room_of row.new ≡ room_of row.old }
{
    if let Some(old) = old {
        row.remove(old);
    }
}
