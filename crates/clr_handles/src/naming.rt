// The handles that name places from a bound on.
ghost use Rattle.std.specs.Prelude.{◌≡◌, ◌<◌, ℕ, false, true, IfNone, IfSome, None, Some};
ghost use Rattle.std.specs.FinMap as finmap;
ghost use Rattle.clr_types.specs.declared.handle.Handle.{Handle as Row};
ghost use Rattle.clr_handles.specs.Places.{IsNext, IsPrevious, names_from, NoneNames};

use crate::rows::Rows;
use crate::tops::CHUNK;
use crate::{Handle, Handles};

impl Handles {
    /// The handle of the least number from `from` on that names a place from `low` on, and that number. `None` where
    /// there is none.
    ///
    /// With a `low` of 0 these are all handles. Chunks of 64 numbers that are known to name nothing from
    /// `low` on are passed over.
    pub fn next_from(&self, from: u64, low: u64) -> Option<(u64, Handle)>
        ensures found { IfSome result (λ found. IsNext self.now low from found.0 found.1) }
        ensures none { IfNone result (NoneNames self.now low from 65536) }
        ensures below { (h : ℕ) (row : Row) → finmap.get self.now h ≡ Some row → h < 65536 }
    {
        let end = CHUNK * self.tops.len() as u64;
        let mut h = from;
        while h < end {
            if self.tops[(h / CHUNK) as usize] < low {
                h = CHUNK * (h / CHUNK + 1);
                continue;
            }
            if let Some(handle) = naming(&self.rows, h, low) {
                return Some((h, handle));
            }
            h += 1;
        }
        None
    }

    /// The handle of the greatest number below `before` that names a place from `low` on, and that number. `None`
    /// where there is none.
    ///
    /// With a `low` of 0 these are all handles. Chunks of 64 numbers that are known to name nothing from
    /// `low` on are passed over.
    pub fn previous_below(&self, before: u64, low: u64) -> Option<(u64, Handle)>
        ensures found { IfSome result (λ found. IsPrevious self.now low before found.0 found.1) }
        ensures none { IfNone result (NoneNames self.now low 0 before) }
        ensures below { (h : ℕ) (row : Row) → finmap.get self.now h ≡ Some row → h < 65536 }
    {
        let mut end = before.min(CHUNK * self.tops.len() as u64);
        while end > 0 {
            let h = end - 1;
            if self.tops[(h / CHUNK) as usize] < low {
                end = CHUNK * (h / CHUNK);
                continue;
            }
            if let Some(handle) = naming(&self.rows, h, low) {
                return Some((h, handle));
            }
            end = h;
        }
        None
    }
}

// The handle of this number, where it names a place from `low` on.
fn naming(rows: &Rows, h: u64, low: u64) -> Option<Handle>
    ensures found { IfSome result (λ row. finmap.get rows.now h ≡ Some row) }
    ensures names { IfSome result (λ row. names_from low row ≡ true) }
    ensures none { IfNone result ((row : Row) → finmap.get rows.now h ≡ Some row → names_from low row ≡ false) }
{
    let handle = rows.get(h)?;
    if low <= handle.target || low <= handle.second {
        Some(handle)
    } else {
        None
    }
}
