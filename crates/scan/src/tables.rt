// Lent tables.

ghost use Rattle.std.specs.Prelude.{◌≡◌, slice_set};

// Writes a value at a place of a table; past its end nothing changes.
pub fn put<T: Copy>(table: &mut [T], at: usize, value: T)
    ensures { table.new ≡ slice_set table.old at value }
{
    // Kept: what a slice's `get_mut` ensures says nothing of the slice's elements after the write.
    if at < table.len() {
        table[at] = value;
    }
}
