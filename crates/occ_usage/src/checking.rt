ghost use Rattle.occ_usage.specs.Accepted.{IsTyped};
ghost use Rattle.occ_usage.specs.Checked.{IsChecked};

use crate::checker::first_fault;
use crate::{Accepted, UsageFault};
use occ_syntax::Program;
use std::alloc::Global;

/// The program as an accepted one, where at each PAR no part names a variable that another assigns or inputs, and no end
/// of a channel is used in two parts. Else the first PAR in preorder that breaks this, with the variable that stands first
/// in its scope of those that are shared, or else the first end, inputs before outputs. A refused program isn't handed back.
/// Names, types, directions and limits are kept, as of each program that was read.
pub fn check(alloc: Global, program: Program) -> Result<Accepted, UsageFault>
    requires { IsTyped program }
    ensures { IsChecked program result }
{
    match first_fault(alloc, &program)? {
        None => Ok(Accepted { program }),
        Some(fault) => Err(fault),
    }
}
