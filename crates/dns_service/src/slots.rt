//! What is kept of connections, by their numbers.
ghost use Rattle.std.specs.Prelude.{◌≡◌, slice_set};

/// Puts a value at an index, if that is there.
pub(crate) fn set<T: Copy>(slots: &mut [T], index: usize, value: T)
    ensures { slots.new ≡ slice_set slots.old index value }
{
    if index < slots.len() {
        slots[index] = value;
    }
}
