//! Configurations and entries, component by component, in the script's own names.
use crate::components::{Keys, word_in, write_has};
use crate::names::state_name;
use configuration::config::Config;
use configuration::well_formed::is_well_formed;
use entry_table::{Component, Entry};
use explanation::alone;
use script_table::Script;
use std::alloc::{AllocError, Global};

/// Whether a component is to be told: each, or where there is a configuration before those alone that are others than there.
fn is_told(component: &Component, before: Option<&Config>) -> bool {
    match before {
        Some(before) => !component.allows(before),
        None => true,
    }
}

/// Adds a component with the value that a configuration has of it, where it is to be told, behind a comma where another stands before it.
fn write_part(
    out: &mut String,
    script: &Script,
    component: &Component,
    config: &Config,
    before: Option<&Config>,
) -> Result<(), AllocError> {
    if !is_told(component, before) {
        return Ok(());
    }
    let gap = if matches!(out.as_bytes(), [.., b'[']) {
        ""
    } else {
        ","
    };
    let keys = Keys { script, component };
    let value = word_in(script, component, config);
    write!(out, r#"{gap}{{"component":"{keys}","value":"{value}"}}"#)
}

/// Adds a configuration that is well formed: its state, and each component with its value, or those alone that are others than in the one before; of another
/// configuration the state alone.
fn write_state(
    alloc: Global,
    out: &mut String,
    script: &Script,
    config: &Config,
    before: Option<&Config>,
) -> Result<(), AllocError> {
    let state = state_name(script, config.state());
    write!(out, r#""state":"{state}","parts":["#)?;
    if is_well_formed(config) {
        let entry = alone(alloc, script, config)?;
        for component in entry.components() {
            write_part(out, script, component, config, before)?;
        }
    }
    out.push_str("]")
}

/// Adds a configuration.
pub(crate) fn write_configuration(
    alloc: Global,
    out: &mut String,
    script: &Script,
    config: &Config,
) -> Result<(), AllocError> {
    out.push_str("{")?;
    write_state(alloc, out, script, config, None)?;
    out.push_str("}")
}

/// Adds the state of a configuration and what of it is other than in the one before.
pub(crate) fn write_change(
    alloc: Global,
    out: &mut String,
    script: &Script,
    config: &Config,
    before: &Config,
) -> Result<(), AllocError> {
    write_state(alloc, out, script, config, Some(before))
}

/// Adds a component with its values.
pub(crate) fn write_component(
    out: &mut String,
    script: &Script,
    component: &Component,
    gap: &str,
) -> Result<(), AllocError> {
    let keys = Keys { script, component };
    write!(out, r#"{gap}{{"component":"{keys}","has":["#)?;
    write_has(out, script, component)?;
    out.push_str("]")
}

/// Adds an entry: its state, and each component with its values.
pub(crate) fn write_entry(
    out: &mut String,
    script: &Script,
    entry: &Entry,
) -> Result<(), AllocError> {
    let state = state_name(script, entry.state());
    write!(out, r#"{{"state":"{state}","parts":["#)?;
    let mut gap = "";
    for component in entry.components() {
        write_component(out, script, component, gap)?;
        out.push_str("}")?;
        gap = ",";
    }
    out.push_str("]}")
}
