//! Items of lists.
ghost use Rattle.std.specs.Prelude.{◌≡◌, slice_get, option_map};
ghost use Rattle.text_views.specs.Pairs.{longer};

/// The item at a place, where there is one.
pub(crate) fn item_at<T>(items: &[T], at: usize) -> Option<&T>
    ensures { option_map (λ item. item.now) result ≡ slice_get items.now at }
{
    if at < items.len() {
        Some(&items[at])
    } else {
        None
    }
}

/// The longer of two lengths.
pub(crate) fn longer(left: usize, right: usize) -> usize
    ensures { result ≡ longer left right }
{
    if left < right { right } else { left }
}
