ghost use Rattle.std.specs.Prelude.{◌≡◌, ◌+◌, min, [], IsTrue, Some, None};
ghost use Rattle.std.specs.List.{list_any};
ghost use Rattle.occ_parse_forms.specs.Shape.{shape};
ghost use Rattle.occ_parse_rules.specs.Forest.{forest};
ghost use Rattle.occ_parse_rules.specs.Judging.{first_fault};
ghost use Rattle.occ_parse_rules.specs.Limits.{is_long, passes_count, count_fault as count_fault_of};
ghost use Rattle.occ_parse_unroll.specs.Reading.{line_of};

use occ_parse_forms::{Declared, Form};
use occ_parse_rules::Node;

/// The first line with a replicator or an array whose count is above 64. It takes no memory.
pub fn count_fault(nodes: &[Node]) -> Option<u32>
    ensures { result ≡ line_of (first_fault count_fault_of [] [] (forest nodes.now)) }
{
    for node in nodes {
        let (line, form, below) = node.seen();
        if passes(form) {
            return Some(line);
        }
        if let Some(line) = count_fault(below) {
            return Some(line);
        }
    }
    None
}

fn passes(form: &Form) -> bool
    ensures { result ≡ passes_count (shape form.now) }
{
    match form {
        Form::Group { times, .. } => match times {
            Some(times) => times.count > 64,
            None => false,
        },
        Form::Declare(declaration) => any_long(declaration.declared.items()),
        _ => false,
    }
}

fn any_long(declared: &[Declared]) -> bool
    ensures { result ≡ list_any is_long declared.now }
{
    declared.iter().any(|d| long(*d))
}

fn long(declared: Declared) -> bool
    ensures { result ≡ is_long declared }
{
    match declared {
        Declared::Array(_, count) => count > 64,
        Declared::Plain(_) | Declared::Element(_, _) => false,
    }
}
