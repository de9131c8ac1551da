//! Where two headers of a take differ if one field of `bext` has another value.
ghost use Rattle.std.specs.Prelude.{◌≡◌, ◌+◌, ◌≤◌, ℕ, Some, IfSome, IfNone, length};
ghost use Rattle.bw_layout.specs.Places.{range_of};
ghost use Rattle.bw_file.specs.OneField.{DiffersInField, IsSameIn};

use bw_layout::field_place;

/// The place and the length of the field in which two headers differ, if they do.
pub(crate) fn changed_range(before: &[u8], after: &[u8]) -> Option<(u64, u64)>
    requires same { length before.now ≡ length after.now }
    requires long { 690 ≤ length after.now }
    ensures none { (tag : ℕ) → DiffersInField tag before.now after.now →
        IfNone result (after.now ≡ before.now) }
    ensures some { (tag : ℕ) → DiffersInField tag before.now after.now →
        IfSome result (λ range. range_of tag ≡ Some range) }
    ensures differ { IfSome result (λ range. ¬ IsSameIn range before.now after.now) }
    ensures end { IfSome result (λ range. range.0 + range.1 ≤ 690) }
{
    for tag in 1..=12 {
        let Some((place, len)) = field_place(tag) else {
            continue;
        };
        let from = place as usize;
        let to = from + len as usize;
        if before[from..to] != after[from..to] {
            return Some((place, len));
        }
    }
    None
}
