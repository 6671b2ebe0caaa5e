ghost use Rattle.std.specs.Prelude.{◌≡◌, List};
ghost use Rattle.occ_lex.specs.declared.symbol.Symbol.{Symbol};
ghost use Rattle.occ_parse_forms.specs.Lines.{IsForm};
ghost use Rattle.occ_parse_forms.specs.Shape.{Shape};

/// A line has one form.
pub fn one_form()
    ensures { (symbols : List Symbol) (s t : Shape) → IsForm symbols s → IsForm symbols t → s ≡ t }
{}
