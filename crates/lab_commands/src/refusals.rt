//! The output for an input that is no script, or whose play was refused.

ghost use Rattle.std.specs.Prelude.{◌≡◌, IfOk};
ghost use Rattle.serde_json.specs.View.{view};
ghost use Rattle.lab_statement.specs.Fault.{kind_name};
ghost use Rattle.lab_commands.specs.Refusals.{refused_object, script_fault_tree, play_fault_tree, script_refused_text, play_refused_text};

use lab_reports::print_line;
use lab_session::{PlayFault, print_play_fault};
use lab_statement::{ScriptFault, ScriptFaultKind, print_script_fault};
use lab_streams::Format;
use lab_table::NoMemory;
use serde_json::{Value as Json, json};
use std::alloc::{AllocError, Global};

/// The name of a kind of fault.
fn name_of(kind: ScriptFaultKind) -> &'static str
    ensures { result.now ≡ kind_name kind }
{
    match kind {
        ScriptFaultKind::NotAscii => "NotAscii",
        ScriptFaultKind::NoSetup => "NoSetup",
        ScriptFaultKind::SetupRepeated => "SetupRepeated",
        ScriptFaultKind::NoSession => "NoSession",
        ScriptFaultKind::UnknownStatement => "UnknownStatement",
        ScriptFaultKind::BadPredicate => "BadPredicate",
        ScriptFaultKind::BadTableName => "BadTableName",
        ScriptFaultKind::NumberOutOfRange => "NumberOutOfRange",
        ScriptFaultKind::TooDeep => "TooDeep",
        ScriptFaultKind::TooLong => "TooLong",
        ScriptFaultKind::DuplicateSetupRow => "DuplicateSetupRow",
        ScriptFaultKind::TooManyTables => "TooManyTables",
    }
}

fn script_fault_json(alloc: Global, fault: &ScriptFault) -> Result<Json, NoMemory>
    ensures { IfOk result (λ v. view v ≡ script_fault_tree fault.now) }
{
    match fault {
        ScriptFault::NoMemory => Err(AllocError),
        ScriptFault::At { line, kind } => json!(in alloc; {
            "kind": name_of(*kind),
            "line": *line
        }),
    }
}

fn script_refused_json(alloc: Global, fault: &ScriptFault) -> Result<Json, NoMemory>
    ensures { IfOk result (λ v. view v ≡ refused_object (script_fault_tree fault.now)) }
{
    let refused = script_fault_json(alloc, fault)?;
    json!(in alloc; {"refused": refused})
}

fn play_fault_json(alloc: Global, fault: &PlayFault) -> Result<Json, NoMemory>
    ensures { IfOk result (λ v. view v ≡ play_fault_tree fault.now) }
{
    match fault {
        PlayFault::NoMemory => Err(AllocError),
        PlayFault::OverLimit { which } => json!(in alloc; {
            "kind": "OverLimit",
            "limit": which.name()
        }),
        PlayFault::Close { .. } => json!(in alloc; {"kind": "Close"}),
        PlayFault::NoThread => json!(in alloc; {"kind": "NoThread"}),
        PlayFault::Full => json!(in alloc; {"kind": "Full"}),
    }
}

fn play_refused_json(alloc: Global, fault: &PlayFault) -> Result<Json, NoMemory>
    ensures { IfOk result (λ v. view v ≡ refused_object (play_fault_tree fault.now)) }
{
    let refused = play_fault_json(alloc, fault)?;
    json!(in alloc; {"refused": refused})
}

/// Returns the output for the fault of a script. In JSON, fails if the fault is itself `NoMemory`.
#[tactic(auto, using(crate::proofs::WrittenRefusals::script_fault_whole))]
pub fn print_script_refusal(
    alloc: Global,
    format: Format,
    fault: &ScriptFault,
) -> Result<Vec<u8>, NoMemory>
    ensures { IfOk result (λ text. text.items ≡ script_refused_text format fault.now) }
{
    match format {
        Format::Lines => print_script_fault(alloc, fault),
        Format::Json => print_line(alloc, &script_refused_json(alloc, fault)?),
    }
}

/// Returns the output for a refused play. In JSON, fails if the fault is itself `NoMemory`.
#[tactic(auto, using(crate::proofs::WrittenRefusals::play_fault_whole))]
pub fn print_play_refusal(
    alloc: Global,
    format: Format,
    fault: &PlayFault,
) -> Result<Vec<u8>, NoMemory>
    ensures { IfOk result (λ text. text.items ≡ play_refused_text format fault.now) }
{
    match format {
        Format::Lines => print_play_fault(alloc, fault),
        Format::Json => print_line(alloc, &play_refused_json(alloc, fault)?),
    }
}
