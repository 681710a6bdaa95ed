//! Where a name stands in a list of entries.

ghost use Rattle.std.specs.Prelude.{◌≡◌, ◌<◌, length, IfSome, bytes_eq, string_bytes};
ghost use Rattle.std.specs.List.{position_from};

/// The place of the first entry with the name.
pub(crate) fn place_of<T>(entries: &[(String, T)], name: &str) -> Option<usize>
    ensures within { IfSome result (λ place. place < length entries.now) }
    ensures place { result ≡ position_from (λ entry. bytes_eq (string_bytes entry.0) name.now) 0 entries.now }
{
    entries.iter().position(|entry| entry.0.as_str() == name)
}
