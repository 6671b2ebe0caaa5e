//! Programs transformed by laws: orders that are followed, and a PAR that is expanded. The answer is the script of what was done.

ghost use Rattle.std.specs.Prelude.{◌≡◌, ◌≢◌, ◌≤◌, ℕ, List, Option, Some, IfOk, length};
ghost use Rattle.occ_derive.specs.occ_derive_search.Derivations.{IsDerived};
ghost use Rattle.occ_replay.specs.occ_script.declared.fault.ScriptFault.TheVariants as script;
ghost use Rattle.occ_tool_run.specs.Answers.{Expands, Transforms};
ghost use Rattle.occ_call.specs.Files.{IsLoaded, IsShort, most_bytes, most_script_bytes};
ghost use Rattle.occ_tool_run.specs.Texts.{IsPrintable, ScriptFaultIsTold};
ghost use Rattle.occ_tool_run.specs.Transformed.{CanBeWritten, HasKnownNames, IsOfExpansion, IsOrderRefusal, IsOrdersRefusal, IsPathRefusal};
ghost use Rattle.occ_tool_run.specs.Transforms.{IsExpandedTo, IsScriptOf, IsTransformed};

use crate::accept::{accept, refused};
use crate::answer::Answer;
use crate::reason::Reason;
use occ_call::Loaded;
use occ_derive::{moves_are_steps, steps_keep_the_meaning, write};
use occ_engine_written::{
    EngineFault, Outcome, expansions_have_known_names, followed_orders_have_known_names,
    kept_parts_have_known_names, names_stay_below, read_programs_have_known_names,
};
use occ_replay::{Path, ScriptFault, orders};
use occ_run_schedule::{Accepted, Side};
use occ_syntax::{Memory, Names};
use std::alloc::Global;

/// The answer to two files: of a program, and of orders that are to be followed from it. The program is judged first.
pub fn transform(alloc: Global, program: &Loaded, text: &Loaded) -> Result<Answer, Memory>
    requires program { IsShort most_bytes program.now }
    requires text { IsShort most_script_bytes text.now }
    ensures transforms { IfOk result (λ answer. (one two : Option (List ℕ)) → IsLoaded most_bytes one program.now
        → IsLoaded most_script_bytes two text.now → Transforms one two answer) }
    ensures printable { IfOk result IsPrintable }
    ensures usage { IfOk result (λ answer. answer ≢ Answer.Usage) }
{
    read_programs_have_known_names();
    let mut names = Names::new(alloc);
    match accept(alloc, &mut names, program) {
        Ok(accepted) => transform_text(alloc, names, &accepted, text),
        Err(refusal) => refused(names, Side::First, refusal),
    }
}

/// The answer to an accepted program and a file that is to hold orders.
fn transform_text(
    alloc: Global,
    names: Names,
    accepted: &Accepted,
    text: &Loaded,
) -> Result<Answer, Memory>
    requires short { IsShort most_script_bytes text.now }
    requires known { HasKnownNames names accepted.now.program }
    ensures transformed { IfOk result (λ answer. (bytes : List ℕ) → IsLoaded most_script_bytes (Some bytes) text.now
        → IsTransformed bytes names accepted.now.program answer) }
    ensures printable { IfOk result IsPrintable }
    ensures usage { IfOk result (λ answer. answer ≢ Answer.Usage) }
{
    match text {
        Loaded::Bytes(bytes) => transform_bytes(alloc, names, accepted, bytes.as_slice()),
        Loaded::TooLong => Ok(Answer::TooLong(Side::Second)),
    }
}

/// The answer to an accepted program and the bytes of a file that is to hold orders.
fn transform_bytes(
    alloc: Global,
    names: Names,
    accepted: &Accepted,
    bytes: &[u8],
) -> Result<Answer, Memory>
    requires short { length bytes.now ≤ most_script_bytes }
    requires known { HasKnownNames names accepted.now.program }
    ensures transformed { IfOk result (IsTransformed bytes.now names accepted.now.program) }
    ensures printable { IfOk result IsPrintable }
    ensures usage { IfOk result (λ answer. answer ≢ Answer.Usage) }
{
    moves_are_steps();
    names_stay_below();
    kept_parts_have_known_names();
    followed_orders_have_known_names();
    let mut names = names;
    let orders = match orders(alloc, &mut names, bytes) {
        Ok(orders) => orders,
        Err(fault) => return refuse_orders(fault),
    };
    match occ_engine_written::transform(alloc, accepted, orders.items()) {
        Ok(outcome) => script(alloc, &names, accepted, &outcome),
        Err(fault) => refuse_order(fault),
    }
}

/// The answer that refuses a text as orders, or out of memory where that is why.
fn refuse_orders(fault: ScriptFault) -> Result<Answer, Memory>
    requires { fault ≢ script.Memory → ScriptFaultIsTold fault }
    ensures told { IfOk result (IsOrdersRefusal fault) }
    ensures printable { IfOk result IsPrintable }
    ensures usage { IfOk result (λ answer. answer ≢ Answer.Usage) }
{
    if fault == ScriptFault::Memory {
        return Err(Memory);
    }
    Ok(Answer::RefusedOrders(fault))
}

/// The answer that refuses an order, or out of memory where that is why.
fn refuse_order(fault: EngineFault) -> Result<Answer, Memory>
    requires { fault ≢ EngineFault.NotPar }
    ensures told { IfOk result (IsOrderRefusal fault) }
    ensures printable { IfOk result IsPrintable }
    ensures usage { IfOk result (λ answer. answer ≢ Answer.Usage) }
{
    let (order, reason) = match fault {
        EngineFault::NoLaw { order } => (order, Reason::NoLaw),
        EngineFault::NoPath { order } => (order, Reason::NoPath),
        EngineFault::NotAccepted { order } => (order, Reason::NotAccepted),
        EngineFault::NotApplicable { order } => (order, Reason::NotApplicable),
        EngineFault::NotPar => unreachable!(),
        EngineFault::Memory => return Err(Memory),
    };
    Ok(Answer::RefusedOrder { order, reason })
}

/// The answer to a file and a path: the PAR there of the program in the file is expanded.
pub fn expand(alloc: Global, program: &Loaded, path: &Path) -> Result<Answer, Memory>
    requires { IsShort most_bytes program.now }
    ensures expands { IfOk result (λ answer. (file : Option (List ℕ)) → IsLoaded most_bytes file program.now
        → Expands file path.now answer) }
    ensures printable { IfOk result IsPrintable }
    ensures usage { IfOk result (λ answer. answer ≢ Answer.Usage) }
{
    read_programs_have_known_names();
    let mut names = Names::new(alloc);
    match accept(alloc, &mut names, program) {
        Ok(accepted) => expand_program(alloc, &names, &accepted, path),
        Err(refusal) => refused(names, Side::First, refusal),
    }
}

/// The answer to an accepted program and the path of a PAR that is to be expanded.
fn expand_program(
    alloc: Global,
    names: &Names,
    accepted: &Accepted,
    path: &Path,
) -> Result<Answer, Memory>
    requires { HasKnownNames names.now accepted.now.program }
    ensures expanded { IfOk result (IsExpandedTo path.now names.now accepted.now.program) }
    ensures printable { IfOk result IsPrintable }
    ensures usage { IfOk result (λ answer. answer ≢ Answer.Usage) }
{
    moves_are_steps();
    kept_parts_have_known_names();
    expansions_have_known_names();
    match occ_engine_written::expand(alloc, accepted, path) {
        Ok(outcome) => script(alloc, names, accepted, &outcome),
        Err(fault) => refuse_path(fault),
    }
}

/// The answer that refuses the path of an expansion, or out of memory where that is why.
fn refuse_path(fault: EngineFault) -> Result<Answer, Memory>
    requires { IsOfExpansion fault }
    ensures told { IfOk result (IsPathRefusal fault) }
    ensures printable { IfOk result IsPrintable }
    ensures usage { IfOk result (λ answer. answer ≢ Answer.Usage) }
{
    let reason = match fault {
        EngineFault::NoPath { .. } => Reason::NoPath,
        EngineFault::NotPar => Reason::NotPar,
        EngineFault::NotAccepted { .. } => Reason::NotAccepted,
        EngineFault::NoLaw { .. } => unreachable!(),
        EngineFault::NotApplicable { .. } => unreachable!(),
        EngineFault::Memory => return Err(Memory),
    };
    Ok(Answer::RefusedPath(reason))
}

/// The script of steps from an accepted program.
pub fn script(
    alloc: Global,
    names: &Names,
    accepted: &Accepted,
    outcome: &Outcome,
) -> Result<Answer, Memory>
    requires outcome { IsDerived accepted.now.program outcome.now }
    requires known { CanBeWritten names.now accepted.now.program outcome.now }
    ensures written { IfOk result (IsScriptOf names.now accepted.now.program outcome.now.steps outcome.now.to) }
    ensures printable { IfOk result IsPrintable }
    ensures usage { IfOk result (λ answer. answer ≢ Answer.Usage) }
{
    steps_keep_the_meaning();
    let from = accepted.program();
    let text = write(alloc, names, from, outcome.steps.items(), &outcome.to)?;
    Ok(Answer::Written(text))
}
