//! What a No is about: the first obligation that is broken, and its point with what of it breaks that, or the configuration that no entry has.
use crate::breaches::write_breaches;
use crate::configurations::write_configuration;
use crate::documents::Documents;
use crate::requests::write_step;
use crate::uncovered::write_uncovered;
use crate::ways::write_way;
use call_ways::find::find_way;
use call_ways::way::{Way, WayStep};
use closure::steps::{opening, reset};
use configuration::config::Config;
use explanation::{Located, locate, uncovered_step};
use mg_model::faults::Fault;
use mg_names::obligations::Obligation;
use std::alloc::{AllocError, Global};

/// The moves of a way; none where none is known.
fn moves_of(way: &Way) -> &[WayStep] {
    match way {
        Way::Comes(moves) => moves.as_slice(),
        _ => &[],
    }
}

/// Adds the first step of a configuration that leads where no entry is.
fn write_uncovered_step(
    alloc: Global,
    out: &mut String,
    documents: Documents<'_>,
    config: &Config,
) -> Result<(), AllocError> {
    let Some(step) = uncovered_step(alloc, documents.script, documents.cert, config)? else {
        return Ok(());
    };
    write_step(alloc, out, documents.script, config, &step)?;
    write_uncovered(alloc, out, documents, &step.result)
}

/// Adds a point.
fn write_point(
    alloc: Global,
    out: &mut String,
    documents: Documents<'_>,
    point: &Located,
) -> Result<(), AllocError> {
    let (place, number) = (point.place, point.number);
    write!(
        out,
        r#","point":{{"entry_place":{place},"point_number":{number},"configuration":"#
    )?;
    write_configuration(alloc, out, documents.script, &point.config)?;
    out.push_str("}")
}

/// Adds the configuration of the opening or of the restart.
fn write_whole(
    alloc: Global,
    out: &mut String,
    documents: Documents<'_>,
    obligation: Obligation,
) -> Result<(), AllocError> {
    let config = match obligation {
        Obligation::ResetCovered => reset(documents.script),
        _ => opening(documents.script),
    };
    out.push_str(r#","uncovered":"#)?;
    write_configuration(alloc, out, documents.script, &config)?;
    write_uncovered(alloc, out, documents, &config)
}

/// Adds a point that breaks an obligation, the way there, and what of it breaks that.
fn write_broken(
    alloc: Global,
    out: &mut String,
    documents: Documents<'_>,
    obligation: Obligation,
    point: &Located,
) -> Result<(), AllocError> {
    write_point(alloc, out, documents, point)?;
    let way = find_way(alloc, documents.script, documents.cert, &point.config)?;
    write_way(alloc, out, documents, point, &way)?;
    if matches!(obligation, Obligation::StepsCovered) {
        return write_uncovered_step(alloc, out, documents, &point.config);
    }
    let (script, config) = (documents.script, &point.config);
    write_breaches(alloc, out, script, config, obligation, moves_of(&way))
}

/// The members of a JSON object on a fault of the check, each behind a comma. The only error is running out of memory.
pub(crate) fn no_facts(
    alloc: Global,
    documents: Documents<'_>,
    fault: &Fault,
) -> Result<String, AllocError> {
    let mut out = String::new(alloc);
    let (obligation, number) = (fault.obligation, fault.obligation.number());
    write!(out, r#","obligation":"K{number}""#)?;
    match locate(documents.cert, fault) {
        Some(point) => write_broken(alloc, &mut out, documents, obligation, &point)?,
        None => write_whole(alloc, &mut out, documents, obligation)?,
    }
    Ok(out)
}
