// Which segment an address lies in, by granules of the address space: a guess, as the runtime's segment mapping table
// gives an answer.
use clr_mem::NoMemory;
use clr_types::SegInfo;
use std::alloc::Global;

/// So many bytes has a granule: as many as the smallest segment.
const GRANULE: u64 = 262_144;

/// So many granules have a number of their own: those of 1 GiB, the highest limit. Addresses that are farther apart may
/// share one.
const GRANULES: usize = 4096;

/// For each granule the number of the segment that was entered last of those that have a part of it.
#[derive(Drop)]
pub(crate) struct SegmentMap {
    numbers: Vec<u16>,
}

impl SegmentMap {
    /// No segments. This is the only call that takes memory.
    pub(crate) fn new(alloc: Global) -> Result<SegmentMap, NoMemory> {
        let numbers = vec![in alloc; 0u16; GRANULES]?;
        Ok(SegmentMap { numbers })
    }

    /// The number of the segment that an address may lie in.
    #[inline]
    pub(crate) fn guess(&self, a: u64) -> usize {
        match self.numbers.get((a / GRANULE) as usize % GRANULES) {
            Some(&k) => k as usize,
            None => 0,
        }
    }

    /// Enters segment `k`.
    pub(crate) fn enter(&mut self, segment: SegInfo, k: usize) {
        let first = segment.base / GRANULE;
        let past = segment
            .base
            .saturating_add(segment.reserved)
            .saturating_add(GRANULE - 1)
            / GRANULE;
        for granule in first..past {
            if let Some(number) = self.numbers.get_mut(granule as usize % GRANULES) {
                *number = (k % 65_536) as u16;
            }
        }
    }

    /// Enters these segments, all that there are.
    pub(crate) fn enter_all(&mut self, segments: &[SegInfo]) {
        for (k, &segment) in segments.iter().enumerate() {
            self.enter(segment, k);
        }
    }
}
