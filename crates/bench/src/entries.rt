// Entries in the first places of a slice.
ghost use Rattle.std.specs.Prelude.{◌≡◌, ◌+◌, ◌-◌, ◌<◌, ◌≤◌, length, take, drop, insert, remove, MatchResult};
ghost use Rattle.std.specs.List.{slice_get};
ghost use Rattle.bench.specs.Places.{Stands, Missing};

// The entry at `index`, among the first `count`.
pub(crate) fn entry_below<T: Copy>(entries: &[T], count: usize, index: usize) -> Option<T>
    ensures { result ≡ slice_get (take count entries.now) index }
{
    entries[..count.min(entries.len())].get(index).copied()
}

// Puts an entry at a place among the first `count`, and moves those from there on one place up.
pub(crate) fn insert_at<T: Copy>(entries: &mut [T], count: usize, at: usize, entry: T)
    requires { (at ≤ count) × (count < length entries.old) }
    ensures { take (count + 1) entries.new ≡ insert (take count entries.old) at entry }
{
    entries.copy_within(at..count, at + 1);
    entries[at] = entry;
}

// Takes the entry at a place out of the first `count`, and moves those after it one place down. From
// the last of them on, the entries stay.
pub(crate) fn remove_at<T: Copy>(entries: &mut [T], count: usize, at: usize)
    requires { (at < count) × (count ≤ length entries.old) }
    ensures taken { take (count - 1) entries.new ≡ remove (take count entries.old) at }
    ensures rest { drop (count - 1) entries.new ≡ drop (count - 1) entries.old }
{
    entries.copy_within(at + 1..count, at);
}

// Where the row stands, or, where it is missing, before which place it belongs.
pub(crate) fn find(rows: &[usize], row: usize) -> Result<usize, usize>
    ensures { MatchResult result (Stands rows.now row) (Missing rows.now row) }
{
    let at = rows
        .iter()
        .position(|&other| row <= other)
        .unwrap_or(rows.len());
    if rows.get(at) == Some(&row) {
        Ok(at)
    } else {
        Err(at)
    }
}
