//! A watcher that doesn't look.

use crate::watcher::Watcher;

/// Shows nothing.
#[derive(Clone, Copy)]
pub struct Silent;

impl Watcher for Silent {
    fn learned(&mut self, _count: u64) {}
}
