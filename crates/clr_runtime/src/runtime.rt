//! What the lines of a script work on: types, heap, locals, handles, and the finalisation queue.
ghost use Rattle.std.specs.Prelude.{◌≡◌, ◌≤◌, ◌/◌, ◌⊎◌, ℕ, IfOk, IfSome, Some, length, true};
ghost use Rattle.clr_types.specs.Types.{form_of};
ghost use Rattle.clr_options.specs.Options.{options_of};
ghost use Rattle.clr_runtime.specs.Outcomes.{refusal_of_fault};

use crate::NoMemory;
use crate::opening::{first_collector, first_roots, first_space};
use crate::parts::Parts;
use crate::sums::Sums;
use clr_bgmark::Background;
use clr_bricks::Bricks;
use clr_cards::Cards;
use clr_final::Finals;
use clr_handles::Handles;
use clr_heap::Heap;
use clr_large::KindItems;
use clr_model::Refusal;
use clr_options::Options;
use clr_safe::Safe;
use clr_types::{DefineFault, Shape, TypeId, Types};
use std::alloc::Global;
use std::marker::Model;

/// So many objects may wait on the stack of a marking. What has no room on it is found again by a walk.
pub(crate) const MARK_STACK: usize = 1024;

/// So many locals has each of the 16 threads.
pub(crate) const LOCALS_OF_A_THREAD: u64 = 64;

/// The types, the heap with its cards and bricks, the indexes of free items, the marker, the locals, the handles and
/// the finalisation queue of a script that runs. Each call is one line.
///
/// Contracts see the machine whose objects are named by their places, the count of what compactions have moved, and
/// for how many objects the mark stack has room. After each call the machine stands for the next state of each graph
/// machine that it stood for before, and the answer is that step's reply. A refused call leaves the state as it was,
/// but for one of `new_object`, `new_pinned` or `begin_new` that finds no room after it has collected. Only such an
/// allocation and `collect` change the count, and nothing changes the room of the mark stack.
///
/// A thread may not go on where its number isn't one from 1 to 16, where another thread holds all others and it isn't
/// in mid-step itself (`Blocked`), and where it is in mid-step itself (`MidStep`). Each line of a thread is refused for
/// that first, in this order.
#[derive(Drop)]
pub struct Runtime {
    pub(crate) parts: Parts,
    /// The type of which an object was asked for last, and the other one before it. They are guesses at the next one,
    /// and no clause speaks of them.
    pub(crate) recent: TypeId,
    pub(crate) earlier: TypeId,
}

impl Model for Runtime {
    ghost use Rattle.clr_runtime.specs.RuntimeView.{RuntimeView};

    ghost Value = { RuntimeView };

    ghost use Rattle.std.specs.Coded.{codes};
    ghost use Rattle.clr_types.specs.HandleCode.{handles_code};

    ghost coded = { Prim.hlevel (codes, handles_code) };

    ghost use Rattle.clr_runtime.specs.RuntimeView.{viewed, IsRuntime};

    ghost view = { λ r. viewed r.parts };

    ghost invariant = { λ r. IsRuntime r.parts };
}

impl Runtime {
    ghost use Rattle.clr_model.specs.Instructions.{define_type};
    ghost use Rattle.clr_model.specs.Lawful.{AreLawfulOptions, IsPlaceNamed};
    ghost use Rattle.clr_model.specs.LineGrammar.{is_name};
    ghost use Rattle.clr_model.specs.Run.{Follows, opening};
    ghost use Rattle.clr_heap.specs.View.{IsHeap};
    ghost use Rattle.clr_view.specs.Clean.{AreClean};
    ghost use Rattle.clr_view.specs.Marks.{IsUnmarked};
    ghost use Rattle.clr_view.specs.View.{AreFreeHeads, IsHeld, layout_in, objects_in};
    ghost use Rattle.clr_bricks.specs.Bricks.{entry_at};
    ghost use Rattle.clr_cards.specs.Cards.{is_card_set};
    ghost use Rattle.clr_generations.specs.Laws.{BrickLaw, NamesYounger};
    ghost use Rattle.clr_runtime.specs.RuntimeView.{IsBegunStore, StandsFor};
    ghost use Rattle.clr_generations.specs.Tables.{AreBricksOf, AreCardsOf};
    ghost use Rattle.clr_safe.specs.Threads.{steps_of};
    ghost use Rattle.clr_background.specs.Log.{LogLaw};
    ghost use Rattle.clr_bgmark.specs.Shades.{is_logged};
    ghost use Rattle.clr_runtime.specs.Births.{IsKnown};
    ghost use Rattle.clr_runtime.specs.Marked.{marking_by, marking_of};
    ghost use Rattle.clr_runtime.specs.Outcomes.{mt_outcome};

    /// No types, no objects, no handles, and every local is null.
    pub fn new(alloc: Global, options: Options) -> Result<Runtime, NoMemory>
        requires { AreLawfulOptions (options_of options) }
        ensures opens { IfOk result (λ runtime. StandsFor runtime (opening (options_of options))) }
        ensures stack { IfOk result (λ runtime. runtime.stack ≡ 1024) }
    {
        Runtime::with_mark_stack(alloc, options, MARK_STACK)
    }

    /// No types, no objects, no handles, and every local is null; `capacity` objects, at least one, have room on the
    /// stack of a marking. The others are found again by walks, so a small stack makes collections slower, and changes
    /// no answer.
    pub fn with_mark_stack(
        alloc: Global,
        options: Options,
        capacity: usize,
    ) -> Result<Runtime, NoMemory>
        requires lawful { AreLawfulOptions (options_of options) }
        requires some { 1 ≤ capacity }
        ensures opens { IfOk result (λ runtime. StandsFor runtime (opening (options_of options))) }
        ensures stack { IfOk result (λ runtime. runtime.stack ≡ capacity) }
    {
        let Ok(types) = Types::new(alloc) else {
            return Err(NoMemory);
        };
        let Ok(space) = first_space(alloc, options) else {
            drop(types);
            return Err(NoMemory);
        };
        let Ok(roots) = first_roots(alloc, 1024) else {
            drop(types);
            drop(space);
            return Err(NoMemory);
        };
        let Ok(collector) = first_collector(alloc, capacity) else {
            drop(types);
            drop(space);
            drop(roots);
            return Err(NoMemory);
        };
        let parts = Parts {
            types,
            space,
            large: KindItems::new(alloc),
            pinned: KindItems::new(alloc),
            roots,
            collector,
            safe: Safe::new(),
            background: Background::new(alloc),
            sums: Sums::NONE,
            options,
        };
        Ok(Runtime {
            parts,
            recent: TypeId(0),
            earlier: TypeId(0),
        })
    }

    /// Defines a type, and gives its method table word. The name is one that a line can spell. With `finalizer` its
    /// objects are finalised once they die.
    ///
    /// The refusals are those of `Types::define`, in their order.
    pub fn define(&mut self, name: &[u8], shape: Shape<'_>, finalizer: bool) -> Result<u64, Refusal>
        requires { is_name name.now ≡ true }
        ensures follows { Follows self.old.machine (define_type name.now (form_of shape.entry) finalizer)
            (mt_outcome result) self.new.machine }
        ensures others { self.new ≡ record self.old { machine = self.new.machine } }
    {
        match self.parts.types.define(name, shape, finalizer) {
            Ok(t) => Ok(self.parts.types.mt(t)),
            Err(fault) => Err(refusal_of(fault)),
        }
    }

    /// The type of which an object was asked for last, which the next line often names, too, and its name.
    #[inline(always)]
    pub fn recent(&self) -> Option<(TypeId, &[u8])>
        ensures name { IfSome result (λ p. is_name p.1.now ≡ true) }
        ensures known { IfSome result (λ p. IsKnown self.now.machine.types p.1.now (Some p.0)) }
    {
        self.with_name(self.recent)
    }

    /// The other one of which an object was asked for before.
    #[inline(always)]
    pub fn earlier(&self) -> Option<(TypeId, &[u8])>
        ensures name { IfSome result (λ p. is_name p.1.now ≡ true) }
        ensures known { IfSome result (λ p. IsKnown self.now.machine.types p.1.now (Some p.0)) }
    {
        self.with_name(self.earlier)
    }

    // A type that a script defined, and its name.
    #[inline(always)]
    fn with_name(&self, t: TypeId) -> Option<(TypeId, &[u8])>
        ensures name { IfSome result (λ p. is_name p.1.now ≡ true) }
        ensures known { IfSome result (λ p. IsKnown self.now.machine.types p.1.now (Some p.0)) }
    {
        let types = &self.parts.types;
        if t.0 != 0 && t.0 < types.count() {
            Some((t, types.name(t)))
        } else {
            None
        }
    }

    /// The table of types.
    #[inline]
    pub fn types(&self) -> &Types
        ensures { result.now ≡ self.now.machine.types }
    {
        &self.parts.types
    }

    /// The heap, of which the options limit the segments. Objects of `large` bytes and more stand in its large
    /// segments, and those that `new_pinned` made in its pinned ones. No object is marked, each free item has the head
    /// of free space without a mark, and the headers and the padding of objects say nothing else. What is seen is a
    /// lawful state whose objects are named by their places.
    #[inline]
    pub fn heap(&self) -> &Heap
        ensures objects { self.now.machine.objects ≡ objects_in self.now.machine.types result.now }
        ensures layout { self.now.machine.layout ≡ layout_in self.now.machine.types result.now }
        ensures held { IsHeld self.now.machine.types result.now }
        ensures unmarked { IsUnmarked self.now.machine.types result.now }
        ensures free_heads { AreFreeHeads self.now.machine.types result.now }
        ensures clean { AreClean self.now.machine.types result.now }
        ensures limit { result.now.limit ≡ self.now.machine.options.limit }
        ensures sound { IsPlaceNamed self.now.machine }
    {
        &self.parts.space.heap
    }

    /// The cards of the heap: each segment has cards for all that it reserves. Where a slot of an object names one of
    /// a lower generation, the card of the slot's address is set, but for the slot of a store that a thread has begun
    /// and not finished.
    #[inline]
    pub fn cards(&self) -> &Cards
        ensures covers { AreCardsOf self.now.machine.layout result.now }
        ensures law { (a : ℕ) → NamesYounger self.now.machine.types self.now.machine.layout self.now.machine.objects a
            → (is_card_set result.now (a / 2048) ≡ true)
            ⊎ IsBegunStore self.now.machine.types self.now.machine.objects self.now.machine.steps a }
    {
        &self.parts.space.cards
    }

    /// The bricks of the heap: each segment has bricks for all that it reserves. A brick names the first object that
    /// starts in it, or nothing; where an object of generation 1 or 2 reaches into one in which none starts, back
    /// entries lead to the nearest one below in which an object starts.
    #[inline]
    pub fn bricks(&self) -> &Bricks
        ensures covers { AreBricksOf self.now.machine.layout result.now }
        ensures law { BrickLaw self.now.machine.types self.now.machine.layout self.now.machine.objects
            (entry_at result.now) }
    {
        &self.parts.space.bricks
    }

    /// The background collection: whether one runs, and then the bits that tell the colour of each object that it took,
    /// and its write log. While one runs, each reference in a slot of a black object is null, or refers to a gray or
    /// black object, or stands on a logged card, or is that of a store that a thread has begun and not finished.
    #[inline]
    pub fn background(&self) -> &Background
        ensures colours { self.now.machine.background ≡ marking_of result.now }
        ensures law { result.now.running ≡ true → LogLaw self.now.machine (marking_by result.now.shades)
            (is_logged result.now.shades) }
    {
        &self.parts.background
    }

    /// The locals, 64 for each of 16 threads, by thread. Null is 0.
    #[inline]
    pub fn locals(&self) -> &[u64]
        ensures value { result.now ≡ self.now.machine.locals }
        ensures count { length result.now ≡ 1024 }
    {
        &self.parts.roots.locals
    }

    /// The handles in use, by their numbers.
    #[inline]
    pub fn handles(&self) -> &Handles
        ensures { result.now ≡ self.now.machine.handles }
    {
        &self.parts.roots.handles
    }

    /// The finalisation queue: the objects that are to be finalised once they die, and those that wait for their
    /// finaliser.
    #[inline]
    pub fn finals(&self) -> &Finals
        ensures entries { result.now.entries ≡ self.now.machine.entries }
        ensures ready { result.now.ready ≡ self.now.machine.ready }
    {
        &self.parts.roots.finals
    }

    /// What each thread has begun and not finished, and the thread that holds all others, if one does.
    #[inline]
    pub fn threads(&self) -> &Safe
        ensures steps { steps_of result.now ≡ self.now.machine.steps }
        ensures holder { result.now.holder ≡ self.now.machine.holder }
    {
        &self.parts.safe
    }

    /// Whether the next collection of all generations slides the objects of large segments together.
    #[inline]
    pub fn compact_large(&self) -> bool
        ensures { result ≡ self.now.machine.compacts_large }
    {
        self.parts.collector.compacts_large
    }

    /// How many bytes all segments may reserve together.
    #[inline]
    pub fn limit(&self) -> u64
        ensures { result ≡ self.now.machine.options.limit }
    {
        self.parts.options.limit
    }

    /// The bytes of an object from which on it is a large one.
    #[inline]
    pub fn large(&self) -> u64
        ensures { result ≡ self.now.machine.options.large }
    {
        self.parts.options.large
    }
}

// How a refusal of the table of types is told.
fn refusal_of(fault: DefineFault) -> Refusal
    ensures { result ≡ refusal_of_fault fault }
{
    match fault {
        DefineFault::Duplicate => Refusal::DuplicateType,
        DefineFault::BadShape => Refusal::BadShape,
        DefineFault::TooManyTypes => Refusal::TooManyTypes,
        DefineFault::NoMemory => Refusal::NoMemory,
    }
}
