//! Orders followed one after the other.

ghost use Rattle.std.specs.Prelude.{◌≡◌, ◌<◌, IfErr, IfOk, length};
ghost use Rattle.occ_engine.specs.Moved.{IsNotTaken, IsTaken, order_of, orders_of};
ghost use Rattle.occ_engine.specs.Outcomes.{AreStopped, IsLedOut, IsOutcome, fault_of};
ghost use Rattle.occ_engine.specs.Resolved.{IsResolved, IsUnresolved};
ghost use Rattle.occ_script.specs.occ_parse_part.Shown.{part_of};
ghost use Rattle.occ_syntax.specs.View.{tree};
ghost use Rattle.occ_law_any.specs.occ_usage.Accepted.{KeepsRules};

use crate::fault::Stopped;
use crate::moving::{Moved, Use, direct, given};
use crate::{Dones, EngineFault, Outcome};
use occ_law_any::Accepted;
use occ_script::{Order, ParseFault, Raw, resolve};
use occ_script_write::{Store, at, scope_at};
use occ_syntax::{Proc, Program, Scope};
use std::alloc::Global;

/// The part of an order as a process of the scope at its path.
fn resolved(alloc: Global, scope: &Scope, raw: &Raw) -> Result<Proc, Stopped>
    ensures found { IfOk result (λ part. IsResolved scope.now (part_of raw.now) (tree part)) }
    ensures refused { IfErr result (IsUnresolved scope.now (part_of raw.now)) }
{
    match resolve(alloc, scope, raw) {
        Ok(part) => Ok(part),
        Err(ParseFault::Memory) => Err(Stopped::Memory),
        Err(_) => Err(Stopped::NotAccepted),
    }
}

/// The program to which an order leads, and the step that it makes.
fn take(alloc: Global, store: &mut Store, program: Program, order: &Order) -> Result<Moved, Stopped>
    requires { KeepsRules program }
    ensures taken { IfOk result (IsTaken program (order_of order.now)) }
    ensures stopped { IfErr result (IsNotTaken program (order_of order.now)) }
{
    let Some(law) = order.law else {
        return Err(Stopped::NoLaw);
    };
    let Some(_old) = at(&program, &order.path) else {
        return Err(Stopped::NoPath);
    };
    let scope = scope_at(alloc, &program, &order.path)?;
    let used = Use {
        law,
        dir: order.dir,
        path: &order.path,
        scope: &scope,
    };
    match &order.part {
        Some(raw) => match resolved(alloc, &scope, raw) {
            Ok(part) => given(alloc, store, program, &used, part),
            Err(stopped) => Err(stopped),
        },
        None => direct(alloc, store, program, &used),
    }
}

/// Why an order isn't followed, with its number.
fn fault(stopped: Stopped, order: u32) -> EngineFault
    ensures { result ≡ fault_of stopped order }
{
    match stopped {
        Stopped::NoLaw => EngineFault::NoLaw { order },
        Stopped::NoPath => EngineFault::NoPath { order },
        Stopped::NotAccepted => EngineFault::NotAccepted { order },
        Stopped::NotApplicable => EngineFault::NotApplicable { order },
        Stopped::Memory => EngineFault::Memory,
    }
}

/// The steps of orders, and the program to which they lead.
fn follow(alloc: Global, from: &Program, orders: &[Order]) -> Result<Outcome, EngineFault>
    requires keeps { KeepsRules from.now }
    requires few { length orders.now < 4294967295 }
    ensures led { IfOk result (IsLedOut from.now (orders_of orders.now)) }
    ensures stopped { IfErr result (AreStopped from.now (orders_of orders.now)) }
{
    let mut store = Store::new(alloc)?;
    let mut to = from.copy(alloc)?;
    let mut steps = Dones::new(alloc);
    let mut number: u32 = 0;
    for order in orders {
        number += 1;
        match take(alloc, &mut store, to, order) {
            Ok(Moved { to: next, done }) => {
                steps.push(done)?;
                to = next;
            }
            Err(stopped) => return Err(fault(stopped, number)),
        }
    }
    Ok(Outcome { steps, to })
}

/// Follows orders one after the other: each gives one step. The steps are moves, so what they lead to means the same as the accepted
/// program, and each has a law of the table. Otherwise the first order that can't be followed is the answer, by its number from 1.
pub fn transform(
    alloc: Global,
    accepted: &Accepted,
    orders: &[Order],
) -> Result<Outcome, EngineFault>
    requires few { length orders.now < 4294967295 }
    ensures led { IfOk result (IsLedOut accepted.now.program (orders_of orders.now)) }
    ensures outcome { IfOk result (IsOutcome accepted.now.program) }
    ensures stopped { IfErr result (AreStopped accepted.now.program (orders_of orders.now)) }
{
    follow(alloc, accepted.program(), orders)
}
