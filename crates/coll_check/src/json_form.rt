//! What is known of a fault as the fields of a JSON object.

use crate::objects::{
    Differing, Lacking, Member, OfLine, OfMismatch, OfMissingPlace, OfMissingStart, PostedObject,
    Replaced, Started,
};
use coll_faults::{
    Detail, Finding, Marked, Mismatch, MissingPlace, MissingStart, PlaceFault, PlacedRequest,
    Suggestion, shown,
};
use coll_script::shown_as;
use coll_snippet::Source;
use serde::Serialize;
use std::alloc::{AllocError, Global};

/// What is known of a fault: the fields after its line and its cause, and the brace that ends its object.
pub(crate) fn known_fields(
    alloc: Global,
    source: &Source<'_>,
    finding: &Finding,
) -> Result<String, AllocError> {
    match &finding.detail {
        Detail::Words(marked) => words_fields(alloc, source, finding.fault.line, marked),
        Detail::Place { fault, suggestion } => match fault {
            PlaceFault::Mismatch(mismatch) => mismatch_fields(alloc, source, mismatch),
            PlaceFault::MissingPlace(missing) => {
                missing_place_fields(alloc, source, missing, suggestion)
            }
            PlaceFault::MissingStart(missing) => missing_start_fields(alloc, missing),
        },
        Detail::Bare => bare_fields(alloc),
    }
}

/// The fields of an object, and the brace that ends it. The only error is refused memory.
fn fields_of<T: Serialize>(alloc: Global, object: &T) -> Result<String, AllocError> {
    let Ok(json) = serde_json::to_string(alloc, object) else {
        return Err(AllocError);
    };
    String::from_str(alloc, json.as_str().trim_start_matches('{'))
}

fn words_fields(
    alloc: Global,
    source: &Source<'_>,
    line: u32,
    marked: &Marked,
) -> Result<String, AllocError> {
    let found = found(alloc, source.line(line), marked)?;
    let notes = notes(alloc, marked)?;
    let help = help(alloc, &marked.suggestion)?;
    let replace = all_replaced(alloc, &marked.suggestion)?;
    let object = OfLine {
        word: Some(marked.word),
        column: Some(marked.start.saturating_add(1)),
        length: Some(marked.len),
        found: Some(found.as_str()).filter(|found| !found.is_empty()),
        label: Some(marked.label.as_str()),
        notes,
        help,
        replace,
    };
    fields_of(alloc, &object)
}

fn bare_fields(alloc: Global) -> Result<String, AllocError> {
    let object = OfLine {
        word: None,
        column: None,
        length: None,
        found: None,
        label: None,
        notes: Vec::new(alloc),
        help: Vec::new(alloc),
        replace: Vec::new(alloc),
    };
    fields_of(alloc, &object)
}

fn notes<'e>(alloc: Global, marked: &'e Marked) -> Result<Vec<&'e str>, AllocError> {
    let mut notes = Vec::new(alloc);
    for note in &marked.notes {
        notes.push(note.as_str())?;
    }
    Ok(notes)
}

/// The marked words as they are shown; empty if a word is missing.
fn found(alloc: Global, line: &[u8], marked: &Marked) -> Result<String, AllocError> {
    let mut found = String::new(alloc);
    for byte in line.iter().skip(marked.start).take(marked.len) {
        found.push(shown_as(*byte))?;
    }
    String::from_str(alloc, found.as_str().trim())
}

/// The help of a suggestion, as a list; empty if there is no suggestion.
fn help<'e>(alloc: Global, suggestion: &'e Option<Suggestion>) -> Result<Vec<&'e str>, AllocError> {
    let mut help = Vec::new(alloc);
    if let Some(suggestion) = suggestion {
        help.push(suggestion.help())?;
    }
    Ok(help)
}

/// The lines that the suggestion replaces, each with those that take its place.
fn all_replaced(
    alloc: Global,
    suggestion: &Option<Suggestion>,
) -> Result<Vec<Replaced>, AllocError> {
    let mut all = Vec::new(alloc);
    if let Some(suggestion) = suggestion {
        for patch in suggestion.patches() {
            let mut by = Vec::new(alloc);
            for line in patch.block.split(|b| *b == b'\n') {
                by.push(shown(alloc, line)?)?;
            }
            all.push(Replaced {
                line: patch.line,
                by,
            })?;
        }
    }
    Ok(all)
}

/// A line of the text, as it is shown.
fn line_of(alloc: Global, source: &Source<'_>, line: u32) -> Result<String, AllocError> {
    let excerpt = source.excerpt(alloc, line)?;
    String::from_str(alloc, excerpt.words().trim_end())
}

fn mismatch_fields(
    alloc: Global,
    source: &Source<'_>,
    mismatch: &Mismatch,
) -> Result<String, AllocError> {
    let first = line_of(alloc, source, mismatch.first.line)?;
    let differs = line_of(alloc, source, mismatch.differs.line)?;
    let object = OfMismatch {
        comm: mismatch.comm,
        place: mismatch.place,
        first: PostedObject {
            rank: mismatch.first.rank,
            line: mismatch.first.line,
            text: first.as_str(),
        },
        differs: Differing {
            rank: mismatch.differs.rank,
            line: mismatch.differs.line,
            text: differs.as_str(),
            fields: mismatch
                .fields
                .iter()
                .map(|field| field.field)
                .collect(alloc)?,
        },
        members: mismatch
            .members
            .iter()
            .map(|standing| as_member(*standing))
            .collect(alloc)?,
    };
    fields_of(alloc, &object)
}

fn as_member(standing: PlacedRequest) -> Member {
    Member {
        rank: standing.rank,
        line: standing.line,
        agrees: standing.agrees,
    }
}

fn missing_place_fields(
    alloc: Global,
    source: &Source<'_>,
    missing: &MissingPlace,
    suggestion: &Option<Suggestion>,
) -> Result<String, AllocError> {
    let first = line_of(alloc, source, missing.first.line)?;
    let lacking = all_lacking(alloc, missing)?;
    let help = help(alloc, suggestion)?;
    let replace = all_replaced(alloc, suggestion)?;
    let object = OfMissingPlace {
        comm: missing.comm,
        place: missing.place,
        first: PostedObject {
            rank: missing.first.rank,
            line: missing.first.line,
            text: first.as_str(),
        },
        lacking,
        help,
        replace,
    };
    fields_of(alloc, &object)
}

fn all_lacking(alloc: Global, missing: &MissingPlace) -> Result<Vec<Lacking>, AllocError> {
    let mut all = Vec::new(alloc);
    for rank in &missing.lacking {
        all.push(Lacking {
            rank: *rank,
            has: missing.place,
        })?;
    }
    Ok(all)
}

fn missing_start_fields(alloc: Global, missing: &MissingStart) -> Result<String, AllocError> {
    let object = OfMissingStart {
        comm: missing.comm,
        place: missing.place,
        members: all_started(alloc, missing)?,
    };
    fields_of(alloc, &object)
}

fn all_started<'e>(
    alloc: Global,
    missing: &'e MissingStart,
) -> Result<Vec<Started<'e>>, AllocError> {
    let mut all = Vec::new(alloc);
    for (rank, line, starts) in &missing.members {
        all.push(Started {
            rank: *rank,
            line: *line,
            starts: starts.as_slice(),
        })?;
    }
    Ok(all)
}
