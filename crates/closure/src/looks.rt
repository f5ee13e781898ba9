//! What is spent on asking many points at once. It may be in vain, so it is earned by steps of points that were looked at by themselves. What is asked in vain so
//! costs a part of the walk over those points, whatever a certificate is like, but for what is lent at the beginning.
use crate::steps::kinds;
use configuration::config::Config;
use entry_table::{Component, product_of};
use mg_names::phases::LinkPhase;
use mg_names::slots::Slot;
use script_table::Script;

/// How many steps earn a look. In one a configuration is asked of an entry, or changed: measured it takes as long as a step does, with what is made for it. So what
/// is asked in vain takes a fourth or so of the walk.
const STEPS_A_LOOK: u64 = 4;

/// What is lent at the beginning, in steps: some milliseconds.
const LENT: u64 = 1 << 18;

/// How many looks may be taken, as steps that earn them. This profile's own.
#[derive(Clone, Copy)]
pub struct Looks {
    left: u64,
    /// With fewer nothing is asked: more were lent the last time that they weren't enough.
    wanted: u64,
}

/// How many steps notes of a line make at most.
fn notes_of(script: &Script, state: u8, line: Slot) -> u64 {
    let mut count: u64 = 0;
    for kind in kinds() {
        if script.target_of(state, line, kind).is_some() {
            count = count.saturating_add(1);
        }
    }
    count
}

/// How many steps a call at rest has at most.
fn rest_steps(script: &Script, state: u8) -> u64 {
    let mut count: u64 = 1;
    for line in Slot::all() {
        count = count.saturating_add(notes_of(script, state, line));
    }
    count
}

/// How many steps a configuration has at most.
fn steps_at(script: &Script, config: &Config) -> u64 {
    match config.link() {
        LinkPhase::Sent => (script.commands_of(config.state()).len() as u64).saturating_add(1),
        LinkPhase::Answered => 1,
        LinkPhase::Failed => 1,
        LinkPhase::Resting => rest_steps(script, config.state()),
    }
}

impl Looks {
    /// Those at the beginning.
    pub fn first() -> Looks {
        Looks {
            left: LENT,
            wanted: 1,
        }
    }

    /// Whether there are too few to ask anything.
    pub(crate) fn are_few(&self) -> bool {
        self.left < self.wanted
    }

    /// Takes so many for each of some, and says whether there were more.
    pub(crate) fn take(&mut self, each: u64, count: usize) -> bool {
        let steps = each
            .saturating_mul(count as u64)
            .saturating_mul(STEPS_A_LOOK);
        self.left = self.left.saturating_sub(steps);
        self.left > 0
    }

    /// Earns what a step that was looked at is worth.
    pub(crate) fn earn(&mut self) {
        self.left = self.left.saturating_add(1);
    }

    /// As many as may be taken for the points that some components make of a configuration: no more than these have steps, so that to ask doesn't take longer
    /// than to look at each.
    pub(crate) fn lend(&self, script: &Script, components: &[Component], config: &Config) -> Looks {
        let steps = steps_at(script, config).saturating_add(1);
        let most = product_of(components)
            .saturating_mul(steps)
            .saturating_mul(STEPS_A_LOOK);
        Looks {
            left: self.left.min(most),
            wanted: 1,
        }
    }

    /// Pays what was taken in vain of what was lent.
    pub(crate) fn pay(&mut self, lent: &Looks, rest: &Looks) {
        let taken = lent.left.saturating_sub(rest.left);
        self.left = self.left.saturating_sub(taken);
        if rest.are_few() {
            self.wanted = lent.left.saturating_mul(2);
        }
    }
}
