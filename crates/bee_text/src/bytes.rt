//! A text beside given bytes.

ghost use Rattle.std.specs.Prelude.{◌≡◌, ◌↔◌, IsTrue};
ghost use Rattle.std.specs.Str.{bytes_eq};

/// Whether a text is these bytes.
pub fn is(text: &[u8], bytes: &[u8]) -> bool
    ensures same { IsTrue result ↔ (text.now ≡ bytes.now) }
    ensures test { result ≡ bytes_eq text.now bytes.now }
{
    text == bytes
}
