//! The connections that are held.

use crate::connection::Connection;
use slab::Slab;
use std::alloc::{AllocError, Global};
use std::time::{Duration, Instant};

/// How many connections are held at once at most.
const MOST: usize = 512;

/// How many bytes of memory are taken at most for what has come of their requests, all together.
const MOST_MEMORY: usize = 33_554_432;

/// The connections that are held, since their peers have more to send or to take, each under a key.
#[derive(Drop)]
pub(crate) struct Held {
    pub(crate) connections: Slab<Connection>,
    /// No connection's time is over before this moment.
    none_over_before: Option<Instant>,
}

impl Held {
    pub(crate) fn new(alloc: Global) -> Result<Held, AllocError> {
        Ok(Held {
            connections: Slab::with_capacity(alloc, MOST)?,
            none_over_before: None,
        })
    }

    /// Makes room for one more: where there is none, the one that was taken first is let go.
    pub(crate) fn make_room(&mut self) {
        if self.connections.len() >= MOST {
            let _gone = self.let_go_first();
        }
    }

    /// Holds a connection, under the slab's next key. Where memory is refused, it is let go.
    pub(crate) fn insert(&mut self, connection: Connection) {
        if self.connections.is_empty() || self.none_over_before.is_none() {
            self.none_over_before = connection.end();
        }
        let _kept = self.connections.insert(connection);
        self.bound_memory();
    }

    /// Lets go those that were taken first, until the others take no more memory than they may.
    pub(crate) fn bound_memory(&mut self) {
        for _ in 0..MOST {
            if self.memory() <= MOST_MEMORY || !self.let_go_first() {
                return;
            }
        }
    }

    /// How many bytes of memory are taken for what has come of the requests.
    fn memory(&self) -> usize {
        let mut sum = 0_usize;
        for (_, connection) in self.connections.iter() {
            sum = sum.saturating_add(connection.memory());
        }
        sum
    }

    /// Lets go the one that was taken first; false where none is held.
    pub(crate) fn let_go_first(&mut self) -> bool {
        match self.first() {
            Some((key, _)) => self.connections.try_remove(key).is_some(),
            None => false,
        }
    }

    /// The one that was taken first, and when its time is over.
    fn first(&self) -> Option<(usize, Option<Instant>)> {
        let mut first = None;
        for (key, connection) in self.connections.iter() {
            let end = connection.end();
            match first {
                Some((_, least)) if least <= end => {}
                _ => first = Some((key, end)),
            }
        }
        first
    }

    /// How long after this moment no connection's time is over.
    pub(crate) fn time_left(&self, now: Instant) -> Duration {
        match self.none_over_before {
            Some(moment) => moment.duration_since(now),
            None => Duration::ZERO,
        }
    }

    /// Lets go those whose time is over at this moment.
    pub(crate) fn let_go_late(&mut self, now: Instant) {
        if !self.time_left(now).is_zero() {
            return;
        }
        self.connections
            .retain(|_, connection| match connection.end() {
                Some(end) => now < end,
                None => false,
            });
        self.none_over_before = self.first().and_then(|(_, end)| end);
    }
}
