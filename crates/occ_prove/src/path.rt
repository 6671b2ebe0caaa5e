//! The numbers of paths.

ghost use Rattle.std.specs.List.{AllByRecursion};
ghost use Rattle.occ_prove.specs.Paths.{HasShortPath};

use occ_tool_run::{Done, read_path};

/// Reads the numbers of the paths of steps, so that it is known that each has 32 bits.
pub(crate) fn read_paths(steps: &[Done])
    ensures { AllByRecursion HasShortPath steps.now }
{
    for step in steps {
        read_path(&step.path);
    }
}
