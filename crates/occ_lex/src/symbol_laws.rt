ghost use Rattle.std.specs.Prelude.{◌≡◌, ℕ, List, IsSome, true};
ghost use Rattle.occ_lex.specs.Spelling.{is_reserved, is_sign};
ghost use Rattle.occ_lex.specs.declared.token.Line.{Line};
ghost use Rattle.occ_lex.specs.Symbols.{AreKnown, rows_of, with_names_of_all};
ghost use Rattle.occ_lex.specs.SymbolWords.{keyword_of, sign_of};

/// Each reserved word is a keyword, and each sign is one of the signs.
pub fn each_token_has_a_symbol()
    ensures words { (text : List ℕ) → is_reserved text ≡ true → IsSome (keyword_of text) }
    ensures signs { (text : List ℕ) → is_sign text ≡ true → IsSome (sign_of text) }
{}

/// The names in the rows of a text's lines are names of the table that reading them leaves.
pub fn names_are_known()
    ensures { (text : List ℕ) (names : List (List ℕ)) (lines : List Line)
        → AreKnown (with_names_of_all text names lines) (rows_of text names lines) }
{}
