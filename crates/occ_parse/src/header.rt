ghost use Rattle.std.specs.Prelude.{◌≡◌, true};
ghost use Rattle.occ_parse_rules.specs.Forest.{forest};
ghost use Rattle.occ_parse.specs.Drafts.{begins_with_header, header_below, header_line, header_name, header_params};

use occ_parse_rules::{Form, Node, Param};
use occ_syntax::Name;

/// The header of a program: its line, the program's name and parameters, and the lines below it.
#[derive(Clone, Copy, Debug)]
pub struct Header<'a> {
    pub line: u32,
    pub name: Name,
    pub params: &'a [Param],
    pub below: &'a [Node],
}

/// The header that lines begin with.
pub fn header_of(nodes: &[Node]) -> Header<'_>
    requires { begins_with_header (forest nodes.now) ≡ true }
    ensures line { result.line ≡ header_line (forest nodes.now) }
    ensures name { result.name ≡ header_name (forest nodes.now) }
    ensures params { result.params.now ≡ header_params (forest nodes.now) }
    ensures below { forest result.below.now ≡ header_below (forest nodes.now) }
{
    let [first, ..] = nodes else {
        unreachable!();
    };
    let (line, form, below) = first.seen();
    match form {
        Form::Header { name, params } => Header {
            line,
            name: *name,
            params: params.items(),
            below,
        },
        _ => unreachable!(),
    }
}
