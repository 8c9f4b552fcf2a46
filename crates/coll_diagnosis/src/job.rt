use crate::collectives::{Collective, Collectives};
use crate::place::{Peer, Place};
use crate::section::RankSection;
use coll_kinds::MAX_COMMUNICATORS;
use coll_parser::{History, Request};
use coll_script::Script;
use std::alloc::{AllocError, Global};

/// The job of a script, as the courses go through it.
#[derive(Debug, Drop)]
pub struct Job<'s> {
    /// How many ranks there are.
    pub ranks: u8,
    /// The commands and requests of each rank.
    pub sections: Vec<RankSection<'s>>,
    /// The places of each communicator, in their order.
    pub places: Vec<Vec<Place>>,
    /// The collectives of the places, each once.
    pub collectives: Vec<Collective>,
}

impl<'s> Job<'s> {
    /// Lays a script out. Linear in the commands, for each communicator in the requests of its members, and for each place in
    /// the collectives of the same count and size.
    pub fn of(alloc: Global, script: &'s Script) -> Result<Job<'s>, AllocError> {
        let history = script.history();
        let sections = sections(alloc, history)?;
        let mut collectives = Collectives::new(alloc);
        let mut places = Vec::new(alloc);
        for (comm, group) in (0..MAX_COMMUNICATORS as u8).zip(history.groups()) {
            places.push(places_on(alloc, comm, group, &sections, &mut collectives)?)?;
        }
        Ok(Job {
            ranks: history.ranks(),
            sections,
            places,
            collectives: collectives.into_all(),
        })
    }

    /// The place of a request.
    pub fn place_of(&self, request: &Request<'_>) -> Option<&Place> {
        let places = self.places.get(usize::from(request.comm))?;
        places.get(request.place)
    }

    /// How many steps all ranks have together.
    pub fn step_count(&self) -> usize {
        let mut count: usize = 0;
        for section in &self.sections {
            count = count.saturating_add(section.steps.len());
        }
        count
    }

    /// Whether it depends on time which requests some call completes.
    pub fn is_open(&self) -> bool {
        self.sections.iter().any(|section| section.steps.iter().any(|step| step.act.is_open()))
    }
}

/// The places of a communicator, each with the requests of its members.
fn places_on(
    alloc: Global,
    comm: u8,
    group: &[u8],
    sections: &[RankSection<'_>],
    collectives: &mut Collectives,
) -> Result<Vec<Place>, AllocError> {
    let mut places = Vec::new(alloc);
    for rank in group {
        if let Some(section) = sections.get(usize::from(*rank)) {
            lay_out(
                alloc,
                comm,
                group.len(),
                *rank,
                &section.requests,
                &mut places,
                collectives,
            )?;
        }
    }
    Ok(places)
}

/// Adds a rank's requests on a communicator of `n` members to their places.
fn lay_out(
    alloc: Global,
    comm: u8,
    n: usize,
    rank: u8,
    requests: &[Request<'_>],
    places: &mut Vec<Place>,
    collectives: &mut Collectives,
) -> Result<(), AllocError> {
    for (index, request) in requests.iter().enumerate() {
        if request.comm == comm {
            if request.place >= places.len() {
                let collective = collectives.index_of(request.sig, n)?;
                places.push(Place::new(alloc, request, collective))?;
            }
            if let Some(place) = places.get_mut(request.place) {
                place.peers.push(Peer {
                    rank,
                    request: index,
                })?;
            }
        }
    }
    Ok(())
}

/// The section of each rank.
fn sections(alloc: Global, history: &History) -> Result<Vec<RankSection<'_>>, AllocError> {
    let mut sections = begun(alloc, history)?;
    for issued in history.commands() {
        if let Some(section) = sections.get_mut(usize::from(issued.rank)) {
            section.say(alloc, issued.line, &issued.command)?;
        }
    }
    end_all(&mut sections)?;
    Ok(sections)
}

/// The section of each rank before its first command.
fn begun(alloc: Global, history: &History) -> Result<Vec<RankSection<'_>>, AllocError> {
    let mut sections = Vec::new(alloc);
    for requests in history.requests(alloc)? {
        sections.push(RankSection::new(alloc, requests))?;
    }
    Ok(sections)
}

fn end_all(sections: &mut [RankSection<'_>]) -> Result<(), AllocError> {
    for section in sections.iter_mut() {
        section.end()?;
    }
    Ok(())
}
