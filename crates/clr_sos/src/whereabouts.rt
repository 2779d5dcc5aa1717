//! `gcwhere`: where an object stands.
ghost use Rattle.std.specs.Prelude.{◌≡◌, ◌↔◌, IfSome, None};
ghost use Rattle.clr_bricks.specs.Bricks.{entry_at};
ghost use Rattle.clr_heap.specs.View.{frame};
ghost use Rattle.clr_model.specs.Lookups.{object_at as object_of};
ghost use Rattle.clr_model.specs.Machine.{Machine};
ghost use Rattle.clr_model.specs.Sos.{kind_number, where_of};
ghost use Rattle.clr_view.specs.View.{IsHeld, objects_in};
ghost use Rattle.clr_generations.specs.Laws.{BrickLaw};
ghost use Rattle.clr_generations.specs.Tables.{AreBricksOf};
ghost use Rattle.clr_sos.specs.Views.{IsViewOf};

use crate::View;
use clr_generations::object_at;
use clr_model::Where;
use clr_types::SegKind;

/// Where the object with the place `a` stands: its generation, the kind of its segment (0 small, 1 ephemeral, 2 large,
/// 3 pinned), the base of that segment, an address, and its own size in bytes.
///
/// `None` comes exactly where no object has the place. The object is found by bricks, without a walk of its segment.
pub fn gcwhere(view: &View<'_>, a: u64) -> Option<Where>
    requires held { IsHeld view.now.types.now view.now.heap.now }
    requires bricks { AreBricksOf (frame view.now.heap.now) view.now.bricks.now }
    requires law { BrickLaw view.now.types.now (frame view.now.heap.now)
        (objects_in view.now.types.now view.now.heap.now) (entry_at view.now.bricks.now) }
    ensures place { IfSome result (λ found. (m : Machine) → IsViewOf view.now m → found ≡ where_of m a) }
    ensures none { (m : Machine) → IsViewOf view.now m → ((result ≡ None) ↔ (object_of m.objects a ≡ None)) }
{
    view.heap.lawful();
    let item = object_at(view.heap, view.types, view.bricks, a)?;
    let k = view.heap.segment_of(a);
    let segment = view.heap.info(k);
    Some(Where {
        generation: view.heap.gen_of(a),
        kind: number_of_kind(segment.kind),
        base: segment.base,
        size: item.size,
    })
}

// The number of a kind of segment.
fn number_of_kind(kind: SegKind) -> u8
    ensures { result ≡ kind_number kind }
{
    match kind {
        SegKind::Small => 0,
        SegKind::Ephemeral => 1,
        SegKind::Large => 2,
        SegKind::Pinned => 3,
    }
}
