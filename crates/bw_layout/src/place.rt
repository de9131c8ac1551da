//! Where the fields of `bext` are in a file.
ghost use Rattle.std.specs.Prelude.{◌≡◌, ◌+◌, ◌≤◌, IfSome, is_some};
ghost use Rattle.bw_model.specs.Take.{shape_of};
ghost use Rattle.bw_layout.specs.Places.{StandsAt, range_of};

/// The place in a file of the bytes that depend on a field of `bext`, and how many they are. None
/// if the tag isn't one of 1 to 12.
///
/// For the loudness they are those from Version on, since Version says whether a loudness is given.
pub fn field_place(tag: u8) -> Option<(u64, u64)>
    ensures place { result ≡ range_of tag }
    ensures known { is_some result ≡ is_some (shape_of tag) }
    ensures stands { IfSome result (λ p. StandsAt tag p.0 p.1) }
    ensures range { IfSome result (λ p. p.0 + p.1 ≤ 690) }
{
    match tag {
        1 => Some((80, 256)),
        2 => Some((336, 32)),
        3 => Some((368, 32)),
        4 => Some((400, 10)),
        5 => Some((410, 8)),
        6 => Some((418, 8)),
        7 => Some((428, 64)),
        8..=12 => Some((426, 76)),
        _ => None,
    }
}
