// The colours and the log of a background collection.
ghost use Rattle.std.specs.Prelude.{◌≡◌, ℕ, ◌/◌, ◌<◌, ◌&&◌, ◌||◌, nat_eq, true, false, [], length, None};
ghost use Rattle.std.specs.Prelude.{OnOk, OnErr, Some, ◌↔◌, ◌⊎◌, map};
ghost use Rattle.std.specs.FinMap as finmap;
ghost use Rattle.clr_types.specs.declared.handle.Handle.{Handle as Row};
ghost use Rattle.clr_view.specs.View.{objects_in};
ghost use Rattle.clr_model.specs.Reach.{Reach};
ghost use Rattle.clr_view.specs.Marks.{Marked};
ghost use Rattle.clr_view.specs.World.{HandlesStand};
ghost use Rattle.clr_mark.specs.Marks.{IsClosed, IsRemarked};
ghost use Rattle.clr_mark.specs.Ties.{IsStart, Joins};
ghost use Rattle.clr_mark.specs.Waiting.{IsGray};
ghost use Rattle.clr_bgmark.specs.Closing.{without_colours};
ghost use Rattle.clr_bgmark.specs.LastPause.{LogHolds};
ghost use Rattle.clr_bgmark.specs.Pauses.{roots_grayed, HasBegun, IsFound, root_grayed, target_grayed, targets_grayed};
ghost use Rattle.clr_bgmark.specs.Scanning.{AreObjects, HasScanned, HaveWholeObjects};
ghost use Rattle.clr_bgmark.specs.Scanning.{IsCounted, HasLogged, marking_in};
ghost use Rattle.clr_bgmark.specs.Shades.{changed_at, colour_at, grayed, is_covered};
ghost use Rattle.clr_bgmark.specs.Tiles.{AreParts, AreTiled};
ghost use Rattle.clr_bgmark.specs.Shades.{is_logged};
ghost use Rattle.clr_bgmark.specs.Shades.{with_logged, with_marked};
ghost use Rattle.clr_mark.specs.Roots as roots;

use crate::NoMemory;
use crate::first_pause::{fronts_of, parts_of, shades_of, take_oldest};
use crate::last_pause::mark_found;
use crate::part::Part;
use crate::pending::Pending;
use crate::shade::{Bit, Shade};
use crate::shades::{colour_in, find, find_near, logged_in, set_bit_in, set_bit_near};
use clr_handles::Handles;
use clr_heap::Heap;
use clr_mark::{Marker, RunKind};
use clr_sweep::Front;
use clr_types::{Handle, Types};
use std::alloc::Global;
use std::marker::Model;

mod behind;
mod closing;
mod scanning;

/// What a background collection knows of a place.
#[derive(Clone, Copy, Debug, PartialEq, Eq)]
pub enum Colour {
    /// No object that was taken at the first pause stands there.
    Outside,
    /// An object that wasn't found yet.
    White,
    /// An object that was found, and whose slots are still to be looked at.
    Gray,
    /// An object that was found, and whose slots were looked at.
    Black,
}

/// What a step of the marker did.
#[derive(Clone, Copy, Debug, PartialEq, Eq)]
pub struct Progress {
    /// How many objects it scanned.
    pub scanned: u64,
    /// How many are gray now.
    pub gray: u64,
}

/// A background collection: the colours of the objects that it took at its first pause, and the log of the cards on
/// which a slot of a black object may name what isn't marked; and what the last pause needs to pass over what is as it
/// was: the old part of each segment at the first pause, and room for its front.
#[derive(Drop)]
pub struct Background {
    alloc: Global,
    running: bool,
    shades: Vec<Shade>,
    // Which segments may have a gray object.
    pending: Pending,
    gray: u64,
    parts: Vec<Part>,
    fronts: Vec<Front>,
    // The number of the segment of the last store, a guess for the next one.
    recent: usize,
}

impl Model for Background {
    ghost use Rattle.clr_bgmark.specs.Shades.{BackgroundView, IsWatched};

    ghost Value = { BackgroundView };

    ghost view = { λ b. record {
      running = b.running;
      shades = b.shades.items;
      gray = b.gray;
      parts = b.parts.items;
      fronts = b.fronts.items;
    } };

    ghost invariant = { λ b. IsWatched b.shades.items b.pending.numbers };
}

impl Background {
    /// None runs. Takes no memory.
    pub fn new(alloc: Global) -> Background
        ensures { result ≡ record { running = false; shades = []; gray = 0; parts = []; fronts = [] } }
    {
        Background {
            alloc,
            running: false,
            shades: Vec::new(alloc),
            pending: Pending::none(alloc),
            gray: 0,
            parts: Vec::new(alloc),
            fronts: Vec::new(alloc),
            recent: 0,
        }
    }

    /// Whether one runs.
    #[inline]
    pub fn running(&self) -> bool
        ensures { result ≡ self.now.running }
    {
        self.running
    }

    /// The colour of a place.
    pub fn colour(&self, obj: u64) -> Colour
        ensures { result ≡ colour_at self.now.shades obj }
    {
        let (_, colour) = self.colour_near(0, obj);
        colour
    }

    // The colour of a place, and which segment has it, a guess for the next one. It is looked for at `near` first.
    #[inline(always)]
    fn colour_near(&self, near: usize, obj: u64) -> (usize, Colour)
        ensures { result.1 ≡ colour_at self.now.shades obj }
    {
        match find_near(&self.shades, near, obj) {
            Some(k) => (k, colour_in(&self.shades, k, obj)),
            None => (near, Colour::Outside),
        }
    }

    /// Whether the card of a slot is logged.
    pub fn logged(&self, slot: u64) -> bool
        ensures { result ≡ is_logged self.now.shades slot }
    {
        match find(&self.shades, slot) {
            Some(k) => logged_in(&self.shades, k, slot),
            None => false,
        }
    }

    /// A reference was stored into the slot: where it lies in what a segment had in use at the first pause of a
    /// collection that runs, its card is logged. Else nothing changes.
    #[inline]
    pub fn wrote(&mut self, slot: u64)
        ensures value { self.new ≡ record self.old { shades = changed_at slot (with_logged slot) self.old.shades } }
        ensures log { (a : ℕ) → is_logged self.new.shades a
            ≡ ((is_covered self.old.shades slot && nat_eq (a / 2048) (slot / 2048)) || is_logged self.old.shades a) }
        ensures colours { (a : ℕ) → colour_at self.new.shades a ≡ colour_at self.old.shades a }
    {
        let near = set_bit_near(&mut self.shades, self.recent, Bit::Logged, slot);
        self.recent = near;
    }

    /// The first pause: takes all objects of generation 2. Those that locals, the f-reachable queue or strong and
    /// pinned handles name are gray, and the others white. Nothing is logged.
    ///
    /// This is the only call that takes memory: bits for the used part of each segment. `NoMemory` comes where there is
    /// none for them; nothing has changed then.
    pub fn begin(
        &mut self,
        heap: &Heap,
        types: &Types,
        handles: &Handles,
        locals: &[u64],
        ready: &[u64],
    ) -> Result<(), NoMemory>
        requires idle { self.old.running ≡ false }
        requires closed { IsClosed types.now heap.now }
        requires handles { HandlesStand types.now heap.now handles.now }
        requires locals { roots.AreObjects types.now heap.now locals.now }
        requires ready { roots.AreObjects types.now heap.now ready.now }
        ensures running { OnOk result (self.new.running ≡ true) }
        ensures begun { OnOk result (HasBegun types.now heap.now handles.now locals.now ready.now self.new.shades) }
        ensures log { OnOk result ((a : ℕ) → is_logged self.new.shades a ≡ false) }
        ensures objects { OnOk result (AreObjects types.now heap.now self.new.shades) }
        ensures whole { OnOk result (HaveWholeObjects types.now heap.now self.new.shades) }
        ensures counted { OnOk result (IsCounted (objects_in types.now heap.now) self.new) }
        ensures parts { OnOk result (AreParts self.new.shades self.new.parts) }
        ensures tiled { OnOk result (AreTiled types.now heap.now self.new.shades self.new.parts) }
        ensures fronts { OnOk result (length self.new.fronts ≡ length self.new.shades) }
        ensures err { OnErr result (self.new ≡ self.old) }
    {
        let mut shades = shades_of(self.alloc, heap)?;
        let mut parts = parts_of(self.alloc, heap)?;
        let fronts = fronts_of(self.alloc, heap)?;
        let pending = Pending::new(self.alloc, heap.segments() as u64)?;
        take_oldest(&mut shades, &mut parts, heap, types);
        self.shades = shades;
        self.pending = pending;
        self.parts = parts;
        self.fronts = fronts;
        self.running = true;
        self.gray = 0;
        self.gray_roots(locals);
        self.gray_roots(ready);
        self.gray_targets(handles);
        Ok(())
    }

    // White roots become gray.
    fn gray_roots(&mut self, roots: &[u64])
        ensures { self.new ≡ roots_grayed roots.now (length roots.now) self.old }
    {
        for &root in roots {
            self.gray_root(root);
        }
    }

    // White targets of strong and pinned handles become gray.
    fn gray_targets(&mut self, handles: &Handles)
        ensures grayed { self.new ≡ targets_grayed handles.now 65536 self.old }
        ensures below { (h : ℕ) (row : Row) → finmap.get handles.now h ≡ Some row → h < 65536 }
    {
        let mut from = 0;
        while let Some((h, handle)) = handles.next_from(from, 0) {
            self.gray_target(&handle);
            from = h + 1;
        }
    }

    // The target of a handle becomes gray, where the handle is strong or pinned and the target white.
    fn gray_target(&mut self, handle: &Handle)
        ensures { self.new ≡ target_grayed (Some handle.now) self.old }
    {
        if handle.kind.is_root() {
            self.gray_root(handle.target);
        }
    }

    // A root becomes gray, where it is white.
    fn gray_root(&mut self, root: u64)
        ensures { self.new ≡ root_grayed self.old root }
    {
        if self.colour(root) == Colour::White {
            self.gray_white(0, root);
        }
    }

    /// The last pause: marks in the heap what the roots and what is gray or black reach, by slots and by dependent
    /// handles, where nothing is marked before. None runs then. Of the black objects those are followed that stand on
    /// a logged card, and few others.
    pub fn finish(
        &mut self,
        heap: &mut Heap,
        types: &Types,
        marker: &mut Marker,
        handles: &Handles,
        locals: &[u64],
        ready: &[u64],
    )
        requires closed { IsClosed types.now heap.old }
        requires clear { (x : ℕ) → Marked types.now heap.old x → ⊥ }
        requires objects { AreObjects types.now heap.old self.old.shades }
        requires handles { HandlesStand types.now heap.old handles.now }
        requires locals { roots.AreObjects types.now heap.old locals.now }
        requires ready { roots.AreObjects types.now heap.old ready.now }
        requires log { LogHolds types.now (objects_in types.now heap.old) self.old.shades }
        ensures background { self.new ≡ record { running = false; shades = []; gray = 0; parts = []; fronts = [] } }
        ensures marker { marker.new ≡ record marker.old { stack = []; ranges = []; oldest = 2 } }
        ensures gray { IsGray types.now heap.new marker.new }
        ensures words { IsRemarked types.now heap.old heap.new }
        ensures marked { (x : ℕ) → Marked types.now heap.new x ↔ Reach (Joins types.now heap.old handles.now)
            (λ y. IsStart handles.now locals.now ready.now y ⊎ IsFound self.old.shades y) x }
    {
        marker.begin(2);
        mark_found(&self.shades, heap, types, marker);
        marker.roots(heap, types, locals);
        marker.handle_roots(heap, types, handles);
        marker.mark_more(heap, types, handles, ready);
        self.stop();
    }

    /// Scans gray objects, one after another, each the lowest one then: so many at most, and all of them unless so many
    /// were.
    ///
    /// The objects that were taken stand where they stood.
    #[inline(never)]
    pub fn step(&mut self, heap: &Heap, types: &Types, n: u64) -> Progress
        requires closed { IsClosed types.now heap.now }
        requires objects { AreObjects types.now heap.now self.old.shades }
        requires whole { HaveWholeObjects types.now heap.now self.old.shades }
        requires counted { IsCounted (objects_in types.now heap.now) self.old }
        ensures running { self.new.running ≡ self.old.running }
        ensures parts { self.new.parts ≡ self.old.parts }
        ensures fronts { self.new.fronts ≡ self.old.fronts }
        ensures taken { map without_colours self.new.shades ≡ map without_colours self.old.shades }
        ensures objects { AreObjects types.now heap.now self.new.shades }
        ensures whole { HaveWholeObjects types.now heap.now self.new.shades }
        ensures counted { IsCounted (objects_in types.now heap.now) self.new }
        ensures log { HasLogged types.now (objects_in types.now heap.now) self.old.shades self.new.shades }
        ensures scans { HasScanned (objects_in types.now heap.now) n self.old.shades result.scanned self.new.shades }
        ensures gray { result.gray ≡ length (marking_in (objects_in types.now heap.now) self.new.shades).gray }
    {
        let mut scanned = 0;
        let mut known = RunKind::none();
        while scanned < n {
            if !self.scan_next(heap, types, &mut known) {
                return self.progress(scanned);
            }
            scanned += 1;
        }
        self.progress(scanned)
    }

    // What a step answers.
    fn progress(&self, scanned: u64) -> Progress
        ensures { result ≡ record { scanned = scanned; gray = self.now.gray } }
    {
        Progress {
            scanned,
            gray: self.gray,
        }
    }

    // A white object becomes gray. Its segment is looked for at `near` first.
    #[inline(always)]
    fn gray_white(&mut self, near: usize, obj: u64)
        ensures { self.new ≡ grayed self.old obj }
    {
        self.mark_near(near, obj);
        self.gray = self.gray.saturating_add(1);
    }

    // An object is marked, and its segment may have gray ones. It is looked for at `near` first.
    #[inline(always)]
    fn mark_near(&mut self, near: usize, obj: u64)
        ensures { self.new ≡ record self.old { shades = changed_at obj (with_marked obj) self.old.shades } }
    {
        match find_near(&self.shades, near, obj) {
            Some(k) => {
                self.pending.add(k as u64);
                set_bit_in(&mut self.shades, k, Bit::Marked, obj);
            }
            None => {}
        }
    }

    /// None runs any more.
    pub fn stop(&mut self)
        ensures { self.new ≡ record { running = false; shades = []; gray = 0; parts = []; fronts = [] } }
    {
        self.shades.clear();
        self.pending = Pending::none(self.alloc);
        self.parts.clear();
        self.fronts.clear();
        self.running = false;
        self.gray = 0;
    }
}
