//! Places in texts.
ghost use Rattle.std.specs.Prelude.{◌≡◌, ◌<◌, IfSome, length};
ghost use Rattle.std.specs.Path.{rfind_below};

/// The place of the last such byte of a text.
pub(crate) fn last_place(text: &[u8], byte: u8) -> Option<usize>
    ensures place { result ≡ rfind_below byte text.now (length text.now) }
    ensures inside { IfSome result (λ place. place < length text.now) }
{
    let mut place = text.len();
    while place > 0 {
        place -= 1;
        if text[place] == byte {
            return Some(place);
        }
    }
    None
}
