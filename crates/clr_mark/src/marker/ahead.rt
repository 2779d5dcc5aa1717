// Passes over the handles that may name condemned objects.
ghost use Rattle.std.specs.Prelude.{◌≡◌, ◌<◌, ℕ, IfNone, IfSome, Some};
ghost use Rattle.std.specs.FinMap as finmap;
ghost use Rattle.clr_types.specs.declared.handle.Handle.{Handle as Row};
ghost use Rattle.clr_mark.specs.HandlePasses.{AllArePassed, HasTaken};

use clr_handles::Handles;
use clr_types::Handle;

// The handles that a pass still has before it: by rising numbers from this one on, or by falling numbers below this
// one.
#[derive(Drop)]
pub(crate) enum Ahead {
    From(u64),
    Below(u64),
}

impl Ahead {
    // Takes the next handle that names a place from `low` on.
    pub(crate) fn next(&mut self, handles: &Handles, low: u64) -> Option<Handle>
        ensures taken { IfSome result (λ row. HasTaken handles.now low self.old self.new row) }
        ensures none { IfNone result (AllArePassed handles.now low self.old) }
        ensures below { (h : ℕ) (row : Row) → finmap.get handles.now h ≡ Some row → h < 65536 }
    {
        match *self {
            Ahead::From(number) => {
                let (found, handle) = handles.next_from(number, low)?;
                *self = Ahead::From(found + 1);
                Some(handle)
            }
            Ahead::Below(number) => {
                let (found, handle) = handles.previous_below(number, low)?;
                *self = Ahead::Below(found);
                Some(handle)
            }
        }
    }
}
