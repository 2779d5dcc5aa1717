//! What `verifyheap` looks at.
use crate::step::Step;
use crate::view::View;

/// All of a state that refers to objects: what the commands look at, and what threads have begun.
#[derive(Clone, Copy)]
pub struct State<'a> {
    pub view: View<'a>,
    /// What each thread has begun and not finished, by thread.
    pub steps: &'a [Step],
    /// The thread that holds all others suspended, if one does.
    pub holder: Option<u64>,
}
