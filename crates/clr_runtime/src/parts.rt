//! Everything that a runtime works on, as one plain struct.
use crate::sums::Sums;
use clr_bgmark::Background;
use clr_collect::CollectorState;
use clr_generations::Space;
use clr_large::KindItems;
use clr_options::Options;
use clr_safe::Safe;
use clr_survivors::Roots;
use clr_types::Types;

/// Everything that a runtime works on.
///
/// Contracts see the value of each part. What holds of them together, and the machine that they show, stand in
/// `IsRuntime` and `seen`.
#[derive(Drop)]
pub(crate) struct Parts {
    pub(crate) types: Types,
    pub(crate) space: Space,
    /// The index of free items of large segments.
    pub(crate) large: KindItems,
    /// The index of free items of pinned segments.
    pub(crate) pinned: KindItems,
    pub(crate) roots: Roots,
    pub(crate) collector: CollectorState,
    /// What threads have begun, and who holds them.
    pub(crate) safe: Safe,
    /// What a background collection knows that runs.
    pub(crate) background: Background,
    pub(crate) sums: Sums,
    pub(crate) options: Options,
}
