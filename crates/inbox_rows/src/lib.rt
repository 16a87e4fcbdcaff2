//! Inboxes and the two halves of live runs over them: tests, and the numbers that they read off entries.
#![tactic(auto)]

ghost use Rattle.std.specs.Prelude.{◌≡◌};
ghost use Rattle.inbox_rows.specs.Numbers.{entry_numbers};

use change_inbox::Entry;

/// An entry as three numbers: its kind, which is 1 for a post, 2 for a cut and 3 for a shut, its seat, and its number or
/// boundary.
pub fn entry_numbers<T>(entry: &Entry<T>) -> (u32, u32, u32)
    ensures { result ≡ entry_numbers entry.now }
{
    match entry {
        Entry::Post { seat, number, .. } => (1, *seat, *number),
        Entry::Cut { seat, boundary } => (2, *seat, *boundary),
        Entry::Shut { seat } => (3, *seat, 0),
    }
}

#[cfg(test)]
mod tests;
