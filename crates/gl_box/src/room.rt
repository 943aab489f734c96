ghost use Rattle.std.specs.Prelude.{◌≡◌, ◌∷◌, ◌++◌, [], OnOk};

use std::alloc::AllocError;

/// Appends an item to a list. Only a full list takes memory, and want of it is the only error.
///
/// [`Vec::push`] does the same, and hands the item back where there is none. That is too much to be
/// inlined, and a search appends at each step.
#[inline]
pub fn append<T: Copy>(list: &mut Vec<T>, item: T) -> Result<(), AllocError>
    ensures { OnOk result (list.new.items ≡ list.old.items ++ item ∷ []) }
{
    if list.len() >= list.capacity() {
        list.reserve(1)?;
    }
    list.push_reserved(item);
    Ok(())
}
