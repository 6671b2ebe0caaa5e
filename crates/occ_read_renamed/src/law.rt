ghost use Rattle.occ_nform.specs.occ_base.Names.{IsDistinct};
ghost use Rattle.occ_nform.specs.occ_base.declared.names.Name.{Name};
ghost use Rattle.occ_renamed.specs.occ_parse.Reading.{IsRead};
ghost use Rattle.occ_renamed.specs.occ_parse.declared.bound.Bound.TheVariants as bound;
ghost use Rattle.occ_nform.specs.occ_syntax.Tree.{Tree};
ghost use Rattle.occ_nform.specs.occ_syntax.declared.scope.Kind.{Kind};
ghost use Rattle.occ_nform.specs.occ_nform_table.Tables.{are_params, IsInterface};
ghost use Rattle.std.specs.Prelude.{[], List, true, ℕ, ◌≡◌};

/// The parameters of a program that was read are an interface, and have names that a program can have.
pub fn parameters_have_names()
    ensures { (text : List ℕ) (old new : List (List ℕ)) (name : Name) (params : List (Name × Kind)) (body : Tree) (numbers : List ℕ)
        → IsDistinct old → IsRead bound.Program text old new name params body numbers
        → IsDistinct new × IsInterface new params × (are_params new [] params ≡ true) }
{}
