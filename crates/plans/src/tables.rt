//! The tables of a plan.
ghost use Rattle.std.specs.Prelude.{◌≡◌, ◌≤◌, ◌==◌, ◌∷◌, [], true, codes, map, not, option_map, IfOk};
ghost use Rattle.std.specs.List.{list_all};
ghost use Rattle.toml.specs.View.{view, table_view};
ghost use Rattle.typed_values.specs.Shape.{Gives};
ghost use Rattle.typed_values.specs.Keys.{optional};
ghost use Rattle.typed_values.specs.Texts.{words_of};
ghost use Rattle.plans.specs.Tables.{whole_meant, shards_meant, call_in, plan_in};
ghost use Rattle.plans.specs.Texts.{step_of};

use crate::for_script::{ReadsFor, items, listed_items, needed_items};
use crate::lines::names_line_twice;
use crate::plan::{Epoch, Plan, PlanCall};
use crate::steps;
use mg_model::plans::PlanStep;
use mg_names::identifiers::LineNo;
use script_table::Script;
use std::alloc::Global;
use toml::{Table, Value};
use typed_values::{Missing, has_only, member, table, text, words};

/// How many shards a plan may have.
const MOST_SHARDS: u32 = 16;

/// A whole number within bounds; `Nothing` where the value is none.
#[tactic(auto, unfolding(crate::specs::Tables::whole_meant))]
fn whole(value: &Value, least: u32, most: u32) -> Result<u32, Missing>
    ensures number { Gives (λ n. n) result (whole_meant least most (view value.now)) }
    ensures bounded { IfOk result (λ number. number ≤ most) }
{
    let Some(number) = value.as_integer() else {
        return Err(Missing::Nothing);
    };
    if number < i64::from(least) || i64::from(most) < number {
        return Err(Missing::Nothing);
    }
    Ok(number as u32)
}

impl ReadsFor for LineNo {
    ghost use Rattle.std.specs.Prelude.{ℕ};
    ghost use Rattle.plans.specs.Tables.{line_meant};

    ghost Seen = { ℕ };

    ghost seen = { λ l. l.0 };

    ghost meaning = { λ script d. line_meant d };

    fn read(_alloc: Global, _script: &Script, value: &Value) -> Result<LineNo, Missing> {
        let number = whole(value, 1, u32::MAX)?;
        Ok(LineNo(number))
    }
}

/// Whether a text has no space.
fn has_no_space(text: &str) -> bool
    ensures { result ≡ list_all (λ byte. not (byte == 32)) text.now }
{
    text.as_bytes().iter().all(|byte| *byte != b' ')
}

/// Whether a text is one word.
fn is_one_word(text: &str) -> bool
    ensures { result ≡ true → words_of text.now ≡ text.now ∷ [] }
{
    has_no_space(text)
}

/// The step that a text writes. Most are of one word, and no list is made for it.
fn step_in(alloc: Global, script: &Script, text: &str) -> Result<PlanStep, Missing>
    ensures { Gives (λ s. s) result (step_of script.now.lines (words_of text.now)) }
{
    if is_one_word(text) {
        return steps::step(script, &[text]).ok_or(Missing::Nothing);
    }
    let words = words(alloc, text)?;
    steps::step(script, words.as_slice()).ok_or(Missing::Nothing)
}

impl ReadsFor for PlanStep {
    ghost use Rattle.mg_model.specs.declared.plans.PlanStep.{PlanStep};
    ghost use Rattle.plans.specs.Tables.{step_meant};

    ghost Seen = { PlanStep };

    ghost seen = { λ s. s };

    ghost meaning = { λ script d. step_meant script d };

    #[tactic(auto, unfolding(crate::specs::Tables::step_meant))]
    fn read(alloc: Global, script: &Script, value: &Value) -> Result<PlanStep, Missing> {
        let text = text(value)?;
        step_in(alloc, script, text)
    }
}

impl ReadsFor for Epoch {
    ghost use Rattle.std.specs.Prelude.{List};
    ghost use Rattle.mg_model.specs.declared.plans.PlanStep.{PlanStep};
    ghost use Rattle.plans.specs.Tables.{epoch_meant};

    ghost Seen = { List PlanStep };

    ghost seen = { λ e. e };

    ghost meaning = { λ script d. epoch_meant script d };

    fn read(alloc: Global, script: &Script, value: &Value) -> Result<Epoch, Missing> {
        let steps = items(alloc, script, value)?;
        Ok(Epoch { steps })
    }
}

impl ReadsFor for PlanCall {
    ghost use Rattle.mg_model.specs.Plans.{PlanCall};
    ghost use Rattle.plans.specs.Tables.{call_meant};

    ghost Seen = { PlanCall };

    ghost seen = { λ c. c };

    ghost meaning = { λ script d. call_meant script d };

    #[tactic(auto, unfolding(crate::specs::Tables::call_meant))]
    fn read(alloc: Global, script: &Script, value: &Value) -> Result<PlanCall, Missing> {
        let table = table(value)?;
        call(alloc, script, table)
    }
}

/// A call of a plan, with as many lines as the script has.
#[tactic(auto, unfolding(crate::specs::Tables::call_in))]
fn call(alloc: Global, script: &Script, table: &Table) -> Result<PlanCall, Missing>
    ensures { Gives (λ c. c) result (call_in script.now (table_view table.now)) }
{
    if !has_only(alloc, table, &["lines", "epochs"])? {
        return Err(Missing::Nothing);
    }
    let lines: Vec<LineNo> = needed_items(alloc, script, table, "lines")?;
    let epochs = needed_items(alloc, script, table, "epochs")?;
    if lines.len() != script.lines() {
        return Err(Missing::Nothing);
    }
    Ok(PlanCall { lines, epochs })
}

/// How many shards a plan names, if it names a number.
fn shards(table: &Table) -> Result<Option<u8>, Missing>
    ensures { Gives (λ n. n) result (optional shards_meant (codes "shards") (table_view table.now)) }
{
    match member(table, "shards") {
        Some(value) => {
            let number = whole(value, 1, MOST_SHARDS)?;
            Ok(Some(number as u8))
        }
        None => Ok(None),
    }
}

/// A plan, whatever its size.
#[tactic(auto, unfolding(crate::specs::Tables::plan_in))]
pub(crate) fn plan(alloc: Global, script: &Script, table: &Table) -> Result<Plan, Missing>
    ensures { Gives (λ p. p) result (plan_in script.now (table_view table.now)) }
{
    if !has_only(alloc, table, &["call", "shards"])? {
        return Err(Missing::Nothing);
    }
    let calls: Vec<PlanCall> = listed_items(alloc, script, table, "call")?;
    let shards = shards(table)?.unwrap_or(1);
    if names_line_twice(alloc, calls.as_slice())? {
        return Err(Missing::Nothing);
    }
    Ok(Plan { calls, shards })
}
