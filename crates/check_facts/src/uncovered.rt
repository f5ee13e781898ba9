//! A configuration that no entry has: the nearest entry with what it lacks, and an entry that would have it.
use crate::components::word_in;
use crate::configurations::{write_component, write_entry};
use crate::documents::Documents;
use certificate::MOST_ENTRIES;
use configuration::config::Config;
use configuration::well_formed::is_well_formed;
use entry_table::Entry;
use explanation::{alone, find_nearest, mend, widen};
use script_table::Script;
use std::alloc::{AllocError, Global};

/// Adds the components of an entry that don't have a configuration's value, each with what it has and with that value.
fn write_lacks(
    out: &mut String,
    script: &Script,
    entry: &Entry,
    config: &Config,
) -> Result<(), AllocError> {
    let mut gap = "";
    for component in entry.components() {
        if !component.allows(config) {
            write_component(out, script, component, gap)?;
            let value = word_in(script, component, config);
            write!(out, r#","value":"{value}"}}"#)?;
            gap = ",";
        }
    }
    Ok(())
}

/// Adds the entry that comes nearest to having a configuration, where its state has one.
fn write_nearest(
    out: &mut String,
    documents: Documents<'_>,
    config: &Config,
) -> Result<(), AllocError> {
    let Some(nearest) = find_nearest(documents.cert, config) else {
        return Ok(());
    };
    let place = nearest.place;
    let Some(entry) = documents.cert.entries().get(place) else {
        return Ok(());
    };
    write!(out, r#","nearest":{{"entry_place":{place},"lacks":["#)?;
    write_lacks(out, documents.script, entry, config)?;
    out.push_str("]}")
}

/// The entry at a place with what it lacks of a configuration added; nothing where that would be too many points.
fn widened_at(
    alloc: Global,
    documents: Documents<'_>,
    place: usize,
    config: &Config,
) -> Result<Option<Entry>, AllocError> {
    let Some(entry) = documents.cert.entries().get(place) else {
        return Ok(None);
    };
    if entry.state() != config.state() || !is_well_formed(config) {
        return Ok(None);
    }
    widen(alloc, documents.script, entry, config)
}

/// The first entry of a configuration's state that can have it too, widened, with its place.
fn first_widened(
    alloc: Global,
    documents: Documents<'_>,
    config: &Config,
) -> Result<Option<(usize, Entry)>, AllocError> {
    for place in documents.cert.of_state(config.state()) {
        if let Some(entry) = widened_at(alloc, documents, *place, config)? {
            return Ok(Some((*place, entry)));
        }
    }
    Ok(None)
}

/// The nearest entry that can have a configuration too, widened, with its place; else the first of its state that can.
fn make_room(
    alloc: Global,
    documents: Documents<'_>,
    config: &Config,
) -> Result<Option<(usize, Entry)>, AllocError> {
    if let Some(nearest) = find_nearest(documents.cert, config) {
        if let Some(entry) = widened_at(alloc, documents, nearest.place, config)? {
            return Ok(Some((nearest.place, entry)));
        }
    }
    first_widened(alloc, documents, config)
}

/// Adds an entry to take the place of one that there is, which has a configuration too, where its state has as many as it may; nothing where there is none.
fn write_room(
    alloc: Global,
    out: &mut String,
    documents: Documents<'_>,
    config: &Config,
) -> Result<(), AllocError> {
    out.push_str(r#","is_full":true"#)?;
    let Some((place, entry)) = make_room(alloc, documents, config)? else {
        return Ok(());
    };
    write!(out, r#","widens":{place},"entry":"#)?;
    write_entry(out, documents.script, &entry)
}

/// Adds the entry of a configuration alone.
fn write_alone(
    alloc: Global,
    out: &mut String,
    script: &Script,
    config: &Config,
) -> Result<(), AllocError> {
    if !is_well_formed(config) {
        return Ok(());
    }
    let entry = alone(alloc, script, config)?;
    out.push_str(r#","alone":"#)?;
    write_entry(out, script, &entry)
}

/// Adds an entry that has a configuration, and where that is another one widened, its place and the entry of that configuration alone.
fn write_mended(
    alloc: Global,
    out: &mut String,
    documents: Documents<'_>,
    config: &Config,
) -> Result<(), AllocError> {
    if !is_well_formed(config) {
        return Ok(());
    }
    let mended = mend(alloc, documents.script, documents.cert, config)?;
    out.push_str(r#","entry":"#)?;
    write_entry(out, documents.script, &mended.entry)?;
    let Some(place) = mended.widens else {
        return Ok(());
    };
    write!(out, r#","widens":{place}"#)?;
    write_alone(alloc, out, documents.script, config)
}

/// Adds what is known of a configuration that no entry has. The only error is running out of memory.
pub(crate) fn write_uncovered(
    alloc: Global,
    out: &mut String,
    documents: Documents<'_>,
    config: &Config,
) -> Result<(), AllocError> {
    write_nearest(out, documents, config)?;
    if documents.cert.of_state(config.state()).len() >= MOST_ENTRIES {
        return write_room(alloc, out, documents, config);
    }
    write_mended(alloc, out, documents, config)
}
