// SPDX-License-Identifier: MIT OR Apache-2.0
// The state that the links of one relay share: how many links are open, whether the switch's link
// has ended, and which links are due to end.

use crate::name::LinkName;
use std::alloc::{AllocError, Global};
use std::sync::Arc;
use std::sync::atomic::{AtomicBool, AtomicUsize, Ordering};

#[derive(Drop)]
struct Shared {
    /// The number of links that haven't ended.
    open: AtomicUsize,
    has_switch_ended: AtomicBool,
    /// Whether the stations' links are due to end. They are due some time after the end of the
    /// switch's link.
    is_over: AtomicBool,
    /// Whether no number is left for a connection, and no connection is open.
    is_used_up: AtomicBool,
}

/// Why reading from a station ends some time after the end of the switch's link.
const BEHIND_SWITCH: &str = "shut: the switch's link has ended";

/// Why reading from the switch ends once the connection numbers are used up.
const USED_UP: &str = "shut: no number is left for a connection";

/// A handle of the state that the links of one relay share.
#[derive(Drop)]
pub(crate) struct OtherLinks {
    shared: Arc<Shared, Global>,
}

impl OtherLinks {
    /// The state of `count` links, all of which are open.
    pub(crate) fn new(alloc: Global, count: usize) -> Result<OtherLinks, AllocError> {
        let shared = Shared {
            open: AtomicUsize::new(count),
            has_switch_ended: AtomicBool::new(false),
            is_over: AtomicBool::new(false),
            is_used_up: AtomicBool::new(false),
        };
        Ok(OtherLinks {
            shared: Arc::new(alloc, shared)?,
        })
    }

    /// Another handle of the same state.
    pub(crate) fn try_clone(&self) -> Result<OtherLinks, AllocError> {
        Ok(OtherLinks {
            shared: Arc::try_clone(&self.shared)?,
        })
    }

    /// Records that the link with this name has ended. The link must have been open. Returns
    /// whether other links are open.
    pub(crate) fn end(&self, name: LinkName) -> bool {
        if let LinkName::Switch = name {
            self.shared.has_switch_ended.store(true, Ordering::SeqCst);
        }
        self.shared.open.fetch_sub(1, Ordering::SeqCst) > 1
    }

    /// Whether the switch's link has ended.
    pub(crate) fn has_switch_ended(&self) -> bool {
        self.shared.has_switch_ended.load(Ordering::SeqCst)
    }

    /// Records that the stations' links are due to end.
    pub(crate) fn be_over(&self) {
        self.shared.is_over.store(true, Ordering::SeqCst);
    }

    /// Whether the stations' links are due to end.
    pub(crate) fn is_over(&self) -> bool {
        self.shared.is_over.load(Ordering::SeqCst)
    }

    /// Records that no number is left for a connection and no connection is open. The switch's link
    /// is then due to end.
    pub(crate) fn use_up(&self) {
        self.shared.is_used_up.store(true, Ordering::SeqCst);
    }

    /// Whether the switch's link is due to end, or has ended, because the connection numbers are
    /// used up.
    pub(crate) fn is_used_up(&self) -> bool {
        self.shared.is_used_up.load(Ordering::SeqCst)
    }

    /// Why the link with this name is due to end, whatever still arrives; `None` if the link isn't
    /// due to end.
    pub(crate) fn why_over(&self, name: LinkName) -> Option<&'static str> {
        match name {
            LinkName::Switch if self.is_used_up() => Some(USED_UP),
            LinkName::Cell(..) if self.is_over() => Some(BEHIND_SWITCH),
            _ => None,
        }
    }
}
