//! What is printed of a configuration.
ghost use Rattle.std.specs.Prelude.{◌≡◌, ◌++◌, ◌∷◌, [], IfOk, length, map, string_bytes};
ghost use Rattle.std.specs.List.{flat_map};
ghost use Rattle.config.specs.Forms.{defined_of};
ghost use Rattle.bodies.specs.Replies.{signed_text};
ghost use Rattle.command_line.specs.Report.{level_line, level_lines, cycle_line, more_lines, cause_lines, Reports};

use bodies::refusals::{signed_text, start_of};
use config::{Config, Relation};
use names::{Cause, CycleStep, Refusal, RelationName};
use std::alloc::{AllocError, Global};

/// What is printed of a configuration's bytes.
#[derive(Debug, Drop)]
pub struct Report {
    /// Whether they are a valid configuration.
    pub accepted: bool,
    /// The level of each relation, or why they are refused. Each line has its end.
    pub text: String,
}

/// What is printed of these bytes.
pub fn report_of(alloc: Global, bytes: &[u8]) -> Result<Report, AllocError>
    ensures { IfOk result (λ r. Reports bytes.now r.accepted (string_bytes r.text)) }
{
    match Config::from_json(alloc, bytes) {
        Ok(config) => Ok(Report {
            accepted: true,
            text: text_of_levels(alloc, config.relations(), config.levels())?,
        }),
        Err(Refusal::ConfigRefused(cause)) => Ok(Report {
            accepted: false,
            text: text_of_cause(alloc, &cause)?,
        }),
        Err(_) => Err(AllocError),
    }
}

fn line_of(alloc: Global, relation: &RelationName, level: usize) -> Result<String, AllocError>
    ensures { IfOk result (λ s. string_bytes s ≡ level_line relation.now level) }
{
    format!(in alloc; "{relation} {level}\n")
}

fn text_of_levels(
    alloc: Global,
    relations: &[Relation],
    levels: &[usize],
) -> Result<String, AllocError>
    requires { length relations.now ≡ length levels.now }
    ensures { IfOk result (λ s. string_bytes s ≡ level_lines (map defined_of relations.now) levels.now) }
{
    let mut text = String::new(alloc);
    for i in 0..relations.len() {
        let line = line_of(alloc, &relations[i].name, levels[i])?;
        text.push_str(line.as_str())?;
    }
    Ok(text)
}

fn text_of_steps(alloc: Global, steps: &[CycleStep]) -> Result<String, AllocError>
    ensures { IfOk result (λ s. string_bytes s ≡ flat_map (λ step. 32 ∷ signed_text step) steps.now) }
{
    let mut text = String::new(alloc);
    for step in steps {
        let relation = signed_text(alloc, step)?;
        text.push(' ')?;
        text.push_str(relation.as_str())?;
    }
    Ok(text)
}

fn text_of_cycle(alloc: Global, steps: &[CycleStep]) -> Result<String, AllocError>
    ensures { IfOk result (λ s. string_bytes s ≡ cycle_line steps.now) }
{
    let start = start_of(alloc, steps)?;
    let rest = text_of_steps(alloc, steps)?;
    format!(in alloc; "{start}{rest}\n")
}

fn text_of_more(alloc: Global, cause: &Cause) -> Result<String, AllocError>
    ensures { IfOk result (λ s. string_bytes s ≡ more_lines cause.now) }
{
    match cause {
        Cause::Cycle(steps) => text_of_cycle(alloc, steps.as_slice()),
        _ => Ok(String::new(alloc)),
    }
}

fn text_of_cause(alloc: Global, cause: &Cause) -> Result<String, AllocError>
    ensures { IfOk result (λ s. string_bytes s ≡ cause_lines cause.now) }
{
    let name = cause.name();
    let more = text_of_more(alloc, cause)?;
    format!(in alloc; "refused 9 {name}\n{more}")
}
