//! That a log has changed, which those who wait have to hear of.

use std::sync::Condvar;

/// The log has one event more. This can't be dropped: only [`Change::wake`] takes it, so nobody who has one forgets
/// those who wait.
pub(crate) struct Change {
    event: (),
}

impl Change {
    /// Of an event that was just appended.
    pub(crate) fn new() -> Change {
        Change { event: () }
    }

    /// Wakes all who wait for a change.
    pub(crate) fn wake(self, waiting: &Condvar) {
        let Change { event: _ } = self;
        waiting.notify_all();
    }
}
