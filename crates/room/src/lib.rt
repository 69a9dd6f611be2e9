// Writing while there is room.
#![tactic(auto)]

ghost use Rattle.std.specs.Prelude.{◌≡◌, set};

// An item where there is room for it: past the end nothing changes, as by `set`.
// By index: of a slice's `get_mut` a proof learns the length alone.
pub fn set_in_room<T: Copy>(items: &mut [T], i: usize, item: T)
    ensures { items.new ≡ set items.old i item }
{
    if i < items.len() {
        items[i] = item;
    }
}
