ghost use Rattle.std.specs.Prelude.{◌≡◌, ◌++◌, ℕ, List, [], length, OnOk, IfOk};
ghost use Rattle.std.specs.List.{AllByRecursion};
ghost use Rattle.occ_syntax.specs.View.{tree};
ghost use Rattle.occ_parse_forms.specs.occ_lex.Symbols.{Extends};
ghost use Rattle.occ_parse_rules.specs.Forest.{forest};
ghost use Rattle.occ_parse_rules.specs.Places.{declared_in, param_entries};
ghost use Rattle.occ_parse_rules.specs.Unrolled.{lined, params_named, slot_process};
ghost use Rattle.occ_parse_unroll.specs.Elements.{params_places, with_elements, with_places};
ghost use Rattle.occ_parse_unroll.specs.Known.{AreKnownLines, IsKnownParam};
ghost use Rattle.occ_parse_unroll.specs.Numbers.{number_in};

use crate::context::Context;
use crate::lined::line_numbers;
use crate::naming::name_places;
use crate::numbering::InTable;
use crate::unrolling::slot;
use occ_parse_forms::Param;
use occ_parse_rules::{Entry, Node};
use occ_parse_scopes::sort_of;
use occ_syntax::{List, Memory, Names, Proc, Scope};
use std::alloc::Global;

/// The program that lines stand for: its parameters, its body, and the number of the line of each process of the body, the
/// outer ones first.
#[derive(Debug, Drop)]
pub struct Unrolled {
    pub params: Scope,
    pub body: Proc,
    pub lines: List<u32>,
}

/// The program that the lines below a header with those parameters stand for: each replicator as its copies, each array as
/// its elements, an IF among choices and an ALT among alternatives as choices and alternatives in that place, and each
/// numeral with the width that its place asks for. An element has its own name in the table, that of its text, as `x[3]`.
/// The table then has the elements that the parameters and the lines speak of (`with_elements`), which the old table, the
/// parameters and the lines alone determine; each table that goes on from it has the same numbers for them. It answers
/// `Memory` only where memory runs out, and then the table has some of them.
pub fn unroll(
    alloc: Global,
    names: &mut Names,
    params: &[Param],
    below: &[Node],
) -> Result<Unrolled, Memory>
    requires params { AllByRecursion (IsKnownParam (length names.old)) params.now }
    requires lines { AreKnownLines (length names.old) (forest below.now) }
    ensures params { IfOk result (λ unrolled. (t : List (List ℕ)) → Extends names.new t → unrolled.params ≡ params_named (number_in t) params.now) }
    ensures body { IfOk result (λ unrolled. (t : List (List ℕ)) → Extends names.new t
        → tree unrolled.body ≡ slot_process (number_in t) (declared_in [] (param_entries params.now)) (forest below.now)) }
    ensures lines { IfOk result (λ unrolled. unrolled.lines ≡ (lined (forest below.now)).parts) }
    ensures table { OnOk result (names.new ≡ with_elements names.old params.now (forest below.now)) }
    ensures extends { Extends names.old names.new }
{
    let mut context = Context::new(alloc);
    let params = declare_params(alloc, names, &mut context, params)?;
    let body = slot(&InTable { alloc }, names, &mut context, below)?;
    let lines = line_numbers(alloc, below)?;
    Ok(Unrolled {
        params,
        body,
        lines,
    })
}

/// Brings parameters into scope; the result is their names with their kinds, in order.
fn declare_params(
    alloc: Global,
    names: &mut Names,
    context: &mut Context,
    params: &[Param],
) -> Result<Scope, Memory>
    requires { AllByRecursion (IsKnownParam (length names.old)) params.now }
    ensures scopes { OnOk result (context.new.scopes ≡ declared_in context.old.scopes (param_entries params.now)) }
    ensures values { OnOk result (context.new.values ≡ context.old.values) }
    ensures params { IfOk result (λ scope. (t : List (List ℕ)) → Extends names.new t → scope ≡ params_named (number_in t) params.now) }
    ensures table { OnOk result (names.new ≡ with_places names.old (params_places params.now)) }
    ensures extends { Extends names.old names.new }
{
    let mut scope = Scope::new(alloc);
    for param in params {
        context.scopes.declare(Entry {
            declared: param.declared,
            sort: sort_of(param.kind),
        })?;
        name_places(
            &InTable { alloc },
            names,
            param.kind,
            param.declared,
            &mut scope,
        )?;
    }
    Ok(scope)
}
