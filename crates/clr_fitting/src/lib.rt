//! Laws on fittings of survivors into older free items.
//!
//! A fitting is done in two steps: a fit takes plugs of generation 1 into free items of generation 2, and a usual
//! compaction of generation 1 follows over what that leaves. The laws say that both together are the fitting, what is
//! counted, and how a fit goes, plug by plug, object by object or item by item.
#![tactic(auto)]

pub mod laws;
