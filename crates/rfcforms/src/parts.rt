//! Parts of slices.
ghost use Rattle.std.specs.Prelude.{◌≡◌, drop, take};

/// Returns the items from that position on.
pub fn items_after<T>(items: &[T], position: usize) -> &[T]
    ensures { result.now ≡ drop position items.now }
{
    &items[position.min(items.len())..]
}

/// Returns so many of the items, or all if there are fewer.
pub fn items_before<T>(items: &[T], count: usize) -> &[T]
    ensures { result.now ≡ take count items.now }
{
    &items[..count.min(items.len())]
}
