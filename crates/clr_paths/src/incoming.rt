// What leads to each object.
ghost use Rattle.std.specs.Prelude.{◌≡◌, ◌≢◌, ◌<◌, length, get_or, IfOk, OnErr, OnOk};
ghost use Rattle.clr_types.specs.Descriptors.{offsets_from};
ghost use Rattle.clr_heap.specs.Memories.{memory_index};
ghost use Rattle.clr_mark.specs.Markings.{item_references};
ghost use Rattle.clr_sos.specs.Reaching.{IsSound, Leads};
ghost use Rattle.clr_paths.specs.Incoming.{AreAllEdges, AreEdges, edge_at, HasListed, IsEdgeOf, HasItem, IsSlotEdge};
ghost use Rattle.clr_paths.specs.Incoming.{IsTieEdge};
ghost use Rattle.clr_paths.specs.Numbers.{AreNumbers, place_of};

use crate::numbers::Numbers;
use clr_sos::{View, ties_of};
use clr_types::{Item, ReferenceRun};
use clr_view::object_item;
use std::alloc::{AllocError, Global};

/// A slot or a dependent handle that leads from one object to another, with the one that was listed before it for the
/// same object. Edges are counted from 1, and 0 is none.
#[derive(Clone, Copy)]
pub(crate) struct Edge {
    pub(crate) from: u32,
    pub(crate) before: u32,
}

/// What leads to each object, by slots and by dependent handles: a list for each, by numbers.
#[derive(Drop)]
pub(crate) struct Incoming {
    edges: Vec<Edge>,
    lasts: Vec<u32>,
}

/// The number in four bytes. The error says that there is no room for so many objects or slots, of which a heap never
/// has 2^32.
#[inline(always)]
pub(crate) fn in_four_bytes(n: usize) -> Result<u32, AllocError>
    ensures number { IfOk result (λ number. number ≡ n) }
    ensures more { OnErr result (0xFFFFFFFF < n) }
{
    if n > 0xFFFF_FFFF {
        return Err(AllocError);
    }
    Ok(n as u32)
}

impl Incoming {
    /// What the objects of a view's heap lead to.
    pub(crate) fn of(
        alloc: Global,
        view: &View<'_>,
        numbers: &Numbers,
    ) -> Result<Incoming, AllocError>
        requires sound { IsSound view.now }
        requires numbers { AreNumbers view.now numbers.now.places.items }
        ensures { IfOk result (λ incoming. AreAllEdges view.now numbers.now.places.items incoming) }
    {
        let lasts = vec![in alloc; 0u32; numbers.places.len()]?;
        let mut incoming = Incoming {
            edges: Vec::new(alloc),
            lasts,
        };
        incoming.add_slots(view, numbers)?;
        incoming.add_ties(alloc, view, numbers)?;
        Ok(incoming)
    }

    /// The last edge to an object, or 0.
    #[inline(always)]
    pub(crate) fn last(&self, to: usize) -> usize
        requires { to < length self.now.lasts.items }
        ensures { result ≡ get_or self.now.lasts.items to 0 }
    {
        self.lasts[to] as usize
    }

    /// An edge.
    #[inline(always)]
    pub(crate) fn edge(&self, e: usize) -> Edge
        requires { IsEdgeOf self.now.edges.items e }
        ensures { result ≡ edge_at self.now.edges.items e }
    {
        self.edges[e - 1]
    }

    // Adds what slots refer to.
    fn add_slots(&mut self, view: &View<'_>, numbers: &Numbers) -> Result<(), AllocError>
        requires sound { IsSound view.now }
        requires numbers { AreNumbers view.now numbers.now.places.items }
        requires edges { AreEdges view.now numbers.now.places.items self.old }
        ensures { OnOk result (HasListed view.now numbers.now.places.items self.old self.new
            (λ f to. (f < length numbers.now.places.items) × IsSlotEdge view.now numbers.now.places.items f to)) }
    {
        let mut near = 0;
        for from in 0..numbers.places.len() {
            let place = numbers.places[from];
            near = view.heap.segment_near(near, place);
            let item = object_item(view.heap, view.types, place);
            self.add_item(view, numbers, near, from, item)?;
        }
        Ok(())
    }

    // Adds what the slots of an object of segment `k` refer to.
    #[inline(always)]
    fn add_item(
        &mut self,
        view: &View<'_>,
        numbers: &Numbers,
        k: usize,
        from: usize,
        item: Item,
    ) -> Result<(), AllocError>
        requires sound { IsSound view.now }
        requires numbers { AreNumbers view.now numbers.now.places.items }
        requires edges { AreEdges view.now numbers.now.places.items self.old }
        requires item { HasItem view.now numbers.now.places.items from item }
        requires segment { k ≡ memory_index view.now.heap.now.memories item.place }
        ensures { OnOk result (HasListed view.now numbers.now.places.items self.old self.new
            (λ f to. (f ≡ from) × IsSlotEdge view.now numbers.now.places.items from to)) }
    {
        match view.types.reference_run(item.type_id, item.len) {
            Some(run) => self.add_run(view, numbers, k, from, item, run),
            None => self.add_each(view, numbers, k, from, item),
        }
    }

    // Adds what a run of references refers to, which are all references of the object.
    #[inline(always)]
    fn add_run(
        &mut self,
        view: &View<'_>,
        numbers: &Numbers,
        k: usize,
        from: usize,
        item: Item,
        run: ReferenceRun,
    ) -> Result<(), AllocError>
        requires sound { IsSound view.now }
        requires numbers { AreNumbers view.now numbers.now.places.items }
        requires edges { AreEdges view.now numbers.now.places.items self.old }
        requires item { HasItem view.now numbers.now.places.items from item }
        requires segment { k ≡ memory_index view.now.heap.now.memories item.place }
        requires run { item_references view.now.types.now item ≡ offsets_from run.offset run.count }
        ensures { OnOk result (HasListed view.now numbers.now.places.items self.old self.new
            (λ f to. (f ≡ from) × IsSlotEdge view.now numbers.now.places.items from to)) }
    {
        for j in 0..run.count {
            let target = view.heap.word_at(k, item.place + (run.offset + 8 * j));
            self.add(view, numbers, k, from, target)?;
        }
        Ok(())
    }

    // Adds what the references of an object refer to, one by one.
    #[inline(never)]
    fn add_each(
        &mut self,
        view: &View<'_>,
        numbers: &Numbers,
        k: usize,
        from: usize,
        item: Item,
    ) -> Result<(), AllocError>
        requires sound { IsSound view.now }
        requires numbers { AreNumbers view.now numbers.now.places.items }
        requires edges { AreEdges view.now numbers.now.places.items self.old }
        requires item { HasItem view.now numbers.now.places.items from item }
        requires segment { k ≡ memory_index view.now.heap.now.memories item.place }
        ensures { OnOk result (HasListed view.now numbers.now.places.items self.old self.new
            (λ f to. (f ≡ from) × IsSlotEdge view.now numbers.now.places.items from to)) }
    {
        if view.types.series(item.type_id).is_empty() {
            return Ok(());
        }
        for offset in view.types.slots(item.type_id, item.len) {
            let target = view.heap.word_at(k, item.place + offset);
            self.add(view, numbers, k, from, target)?;
        }
        Ok(())
    }

    // Adds what dependent handles tie.
    fn add_ties(
        &mut self,
        alloc: Global,
        view: &View<'_>,
        numbers: &Numbers,
    ) -> Result<(), AllocError>
        requires sound { IsSound view.now }
        requires numbers { AreNumbers view.now numbers.now.places.items }
        requires edges { AreEdges view.now numbers.now.places.items self.old }
        ensures { OnOk result (HasListed view.now numbers.now.places.items self.old self.new
            (λ f to. (f < length numbers.now.places.items) × IsTieEdge view.now numbers.now.places.items f to)) }
    {
        let ties = ties_of(alloc, view.handles)?;
        for i in 0..ties.len() {
            let tie = ties[i];
            let k = view.heap.segment_of(tie.primary);
            let from = numbers.number(k, tie.primary);
            self.add(view, numbers, k, from, tie.second)?;
        }
        Ok(())
    }

    // Adds that an object leads to the one at an address, where that isn't null. It is looked for in segment `near`
    // first.
    #[inline(always)]
    fn add(
        &mut self,
        view: &View<'_>,
        numbers: &Numbers,
        near: usize,
        from: usize,
        target: u64,
    ) -> Result<(), AllocError>
        requires sound { IsSound view.now }
        requires numbers { AreNumbers view.now numbers.now.places.items }
        requires edges { AreEdges view.now numbers.now.places.items self.old }
        requires from { from < length numbers.now.places.items }
        requires leads { target ≢ 0 → Leads view.now (place_of numbers.now.places.items from) target }
        ensures { OnOk result (HasListed view.now numbers.now.places.items self.old self.new
            (λ f to. (f ≡ from) × (0 < target) × (place_of numbers.now.places.items to ≡ target))) }
    {
        if target == 0 {
            return Ok(());
        }
        let k = view.heap.segment_near(near, target);
        let to = numbers.number(k, target);
        let before = self.lasts[to];
        let from = in_four_bytes(from)?;
        self.edges.push(Edge { from, before })?;
        self.lasts[to] = in_four_bytes(self.edges.len())?;
        Ok(())
    }
}
