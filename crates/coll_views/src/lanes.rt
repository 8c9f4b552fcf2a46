//! The lane of its rank in which each bar is drawn. Bars that overlap in time get different lanes.

use coll_kinds::Ticket;
use coll_report::Entry;
use coll_script::ReportFault;
use std::alloc::{AllocError, Global};

/// An active request, with the index of the entry that made it active.
#[derive(Clone, Copy)]
struct Active {
    ticket: Ticket,
    begin: usize,
}

/// The lane and the bar of an entry.
#[derive(Clone, Copy)]
pub(crate) struct Bar {
    pub(crate) lane: usize,
    /// The index of the post or start whose bar the entry begins or ends; the entry's own index if it does neither.
    pub(crate) begin: usize,
}

/// The lanes of each rank, with the requests that are active in them.
#[derive(Drop)]
pub(crate) struct Lanes {
    ranks: Vec<Vec<Option<Active>>>,
}

impl Lanes {
    /// The lanes of this number of ranks, without a bar.
    pub(crate) fn new(alloc: Global, ranks: u8) -> Result<Lanes, AllocError> {
        let mut all = Vec::new(alloc);
        for _ in 0..ranks {
            all.push(Vec::new(alloc))?;
        }
        Ok(Lanes { ranks: all })
    }

    /// For each lane of a rank, whether it has a bar.
    pub(crate) fn of(&self, alloc: Global, rank: u8) -> Result<Vec<bool>, AllocError> {
        let mut bars = Vec::new(alloc);
        if let Some(lanes) = self.ranks.get(usize::from(rank)) {
            for lane in lanes {
                bars.push(lane.is_some())?;
            }
        }
        Ok(bars)
    }

    /// Goes on to the entry of that index, and returns where it is drawn. `Torn` if it completes a request that isn't active,
    /// or is of no rank.
    pub(crate) fn enter(&mut self, index: usize, entry: &Entry) -> Result<Bar, ReportFault> {
        let Some(lanes) = self.ranks.get_mut(usize::from(entry.rank())) else {
            return Err(ReportFault::Torn);
        };
        let begin = index;
        match entry {
            Entry::Posted { ticket, .. } | Entry::Started { ticket, .. } => {
                let lane = free_lane(lanes);
                let active = Some(Active {
                    ticket: *ticket,
                    begin,
                });
                match lanes.get_mut(lane) {
                    Some(place) => *place = active,
                    None => lanes.push(active)?,
                }
                Ok(Bar { lane, begin })
            }
            Entry::Retired { ticket, .. } => leave(lanes, *ticket),
            Entry::Inited { .. } | Entry::Freed { .. } => Ok(Bar {
                lane: free_lane(lanes),
                begin,
            }),
        }
    }
}

/// The first lane without a bar; the number of lanes if each has one.
fn free_lane(lanes: &[Option<Active>]) -> usize {
    lanes
        .iter()
        .position(|lane| lane.is_none())
        .unwrap_or(lanes.len())
}

/// Ends the bar of a request. `Torn` if the request has none.
fn leave(lanes: &mut [Option<Active>], ticket: Ticket) -> Result<Bar, ReportFault> {
    for lane in 0..lanes.len() {
        if let Some(active) = lanes[lane] {
            if active.ticket == ticket {
                lanes[lane] = None;
                return Ok(Bar {
                    lane,
                    begin: active.begin,
                });
            }
        }
    }
    Err(ReportFault::Torn)
}
