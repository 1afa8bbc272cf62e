//! Items of lists by their index.
ghost use Rattle.std.specs.Prelude.{◌≡◌, slice_index_or};

/// The item of that index; the other past the last.
///
/// Source: own choice ("Closed rows").
pub fn item_or<T: Copy>(items: &[T], index: usize, other: T) -> T
    ensures { result ≡ slice_index_or items.now index other }
{
    match items.get(index) {
        Some(item) => *item,
        None => other,
    }
}
