//! Elements of a vector change places, and some leave it. Nothing here takes memory.
ghost use Rattle.std.specs.Prelude.{◌≡◌, ◌++◌, ◌∷◌, ◌+◌, ◌<◌, ◌≤◌, length, take, drop, reverse, slice_index_or, slice_range};

/// What stands at a place comes to a later one, after all between.
pub(crate) fn move_up<T>(items: &mut [T], from: usize, to: usize)
    requires order { from ≤ to }
    requires within { to < length items.old }
    ensures { (d : T) → items.new ≡ take from items.old
        ++ (slice_range items.old (from + 1) (to + 1) ++ slice_index_or items.old from d ∷ drop (to + 1) items.old) }
{
    items[from..to + 1].rotate_left(1);
}

/// What stands at a place comes to an earlier one, before all between.
pub(crate) fn move_down<T>(items: &mut [T], from: usize, to: usize)
    requires order { to ≤ from }
    requires within { from < length items.old }
    ensures { (d : T) → items.new ≡ take to items.old
        ++ (slice_index_or items.old from d ∷ (slice_range items.old to from ++ drop (from + 1) items.old)) }
{
    items[to..from + 1].rotate_right(1);
}

/// The elements from one place to another leave.
pub(crate) fn remove_range<T: Drop>(items: &mut Vec<T>, from: usize, to: usize)
    requires order { from ≤ to }
    requires within { to ≤ length items.old.items }
    ensures { items.new.items ≡ take from items.old.items ++ drop to items.old.items }
{
    let left = items.len() - (to - from);
    items.as_mut_slice()[from..].rotate_left(to - from);
    items.truncate(left);
}

/// In place of the elements from one place up to another come some of others, the last first, then the element at that other place, and
/// then one more.
pub(crate) fn restack<T: Drop>(
    items: &mut Vec<T>,
    from: usize,
    to: usize,
    mut others: Vec<T>,
    last: T,
)
    requires room { from + length others.items < to }
    requires within { to < length items.old.items }
    ensures { (d : T) → items.new.items ≡ take from items.old.items
        ++ (reverse others.items ++ slice_index_or items.old.items to d ∷ last ∷ drop (to + 1) items.old.items) }
{
    let mut at = from;
    while let Some(other) = others.pop() {
        items[at] = other;
        at += 1;
    }
    items[at] = last;
    remove_range(items, at + 1, to);
    items.swap(at, at + 1);
}
