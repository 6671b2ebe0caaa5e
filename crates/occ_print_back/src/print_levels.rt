//! How deep the lines stand on which a program is printed. There is no code: the law is the contract of a function without a body.

ghost use Rattle.std.specs.Prelude.{ℕ, ◌≡◌, ◌≤◌, List, true};
ghost use Rattle.occ_print.specs.occ_base.declared.names.Name.{Name};
ghost use Rattle.occ_parse.specs.Limits.{is_limited};
ghost use Rattle.occ_parse.specs.Reading.{IsRead};
ghost use Rattle.occ_parse.specs.declared.bound.Bound.{Bound};
ghost use Rattle.occ_print.specs.Lines.{part_lines};
ghost use Rattle.occ_print_back.specs.Back.{deepest};
ghost use Rattle.occ_print.specs.occ_syntax.Tree.{Tree};
ghost use Rattle.occ_print.specs.occ_syntax.declared.scope.Kind.{Kind};

/// A program that was read from a text that all limits bind is printed on lines no deeper than level 64.
pub fn read_programs_print_within_levels()
    ensures { (b : Bound) (text : List ℕ) (old new : List (List ℕ)) (name : Name) (params : List (Name × Kind)) (body : Tree)
        (numbers : List ℕ) → is_limited b ≡ true → IsRead b text old new name params body numbers
        → deepest (part_lines 1 body) ≤ 64 }
{}
