ghost use Rattle.std.specs.Prelude.{◌≡◌, ℕ, List, map, Ok};
ghost use Rattle.occ_lex.specs.Placed.{IsReadingOf};
ghost use Rattle.occ_lex.specs.Printed.{ArePrinted, Printed, printed_lines, printed_text};
ghost use Rattle.occ_lex.specs.Rows.{lines_of, reading_of};
ghost use Rattle.occ_lex.specs.Words.{printed_words, words_of};

/// A text that is printed as lines, each from its level and its tokens, reads as these lines.
pub fn printed_text_is_read()
    ensures { (lines : List Printed) → ArePrinted lines → lines_of (printed_text lines) ≡ Ok (printed_lines 1 0 lines) }
{}

/// The tokens of the lines that a printed text reads as are spelled by the bytes that were printed.
pub fn printed_lines_have_their_words()
    ensures { (lines : List Printed) → ArePrinted lines
        → map (words_of (printed_text lines)) (printed_lines 1 0 lines) ≡ map printed_words lines }
{}

/// What a text reads as lies in the text: each line has a token, each token is spelled by the bytes at its places and
/// is without fault, and the lines' numbers go up and stay below that of the fault.
pub fn reading_is_of_its_text()
    ensures { (text : List ℕ) → IsReadingOf text (reading_of text).0 (reading_of text).1 }
{}
