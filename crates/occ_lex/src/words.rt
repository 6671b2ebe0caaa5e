ghost use Rattle.std.specs.Prelude.{◌≡◌};
ghost use Rattle.occ_lex.specs.SymbolWords.{keyword_of, look_up, sign_of};

use crate::{Keyword, Sign};
use occ_base::Width;

const KEYWORDS: [(&str, Keyword); 26] = [
    ("SKIP", Keyword::Skip),
    ("STOP", Keyword::Stop),
    ("SEQ", Keyword::Seq),
    ("PAR", Keyword::Par),
    ("ALT", Keyword::Alt),
    ("IF", Keyword::If),
    ("FOR", Keyword::For),
    ("PROC", Keyword::Proc),
    ("CHAN", Keyword::Chan),
    ("OF", Keyword::Of),
    ("TRUE", Keyword::True),
    ("FALSE", Keyword::False),
    ("AND", Keyword::And),
    ("OR", Keyword::Or),
    ("NOT", Keyword::Not),
    ("PLUS", Keyword::Plus),
    ("MINUS", Keyword::Minus),
    ("BOOL", Keyword::Width(Width::Bool)),
    ("WORD1", Keyword::Width(Width::Word(1))),
    ("WORD2", Keyword::Width(Width::Word(2))),
    ("WORD3", Keyword::Width(Width::Word(3))),
    ("WORD4", Keyword::Width(Width::Word(4))),
    ("WORD5", Keyword::Width(Width::Word(5))),
    ("WORD6", Keyword::Width(Width::Word(6))),
    ("WORD7", Keyword::Width(Width::Word(7))),
    ("WORD8", Keyword::Width(Width::Word(8))),
];

const SIGNS: [(&str, Sign); 20] = [
    (":=", Sign::Becomes),
    ("<=", Sign::AtMost),
    (">=", Sign::AtLeast),
    ("<>", Sign::Differ),
    ("><", Sign::BitXor),
    ("/\\", Sign::BitAnd),
    ("\\/", Sign::BitOr),
    ("~", Sign::Flip),
    ("&", Sign::Ampersand),
    ("(", Sign::Open),
    (")", Sign::Close),
    ("[", Sign::OpenIndex),
    ("]", Sign::CloseIndex),
    (",", Sign::Comma),
    (":", Sign::Colon),
    ("?", Sign::Query),
    ("!", Sign::Bang),
    ("=", Sign::Equal),
    ("<", Sign::Less),
    (">", Sign::Greater),
];

fn entry<T: Copy>(table: &[(&str, T)], text: &[u8]) -> Option<T>
    ensures { result ≡ look_up (λ entry. entry.0.now) (λ entry. entry.1) table.now text.now }
{
    for (word, meaning) in table {
        if text == word.as_bytes() {
            return Some(*meaning);
        }
    }
    None
}

/// The reserved word that a text is, None where it is none.
#[tactic(auto, unfolding(crate::specs::SymbolWords::keyword_of))]
pub fn keyword(text: &[u8]) -> Option<Keyword>
    ensures { result ≡ keyword_of text.now }
{
    entry(&KEYWORDS, text)
}

/// The sign that a text is, None where it is none.
#[tactic(auto, unfolding(crate::specs::SymbolWords::sign_of))]
pub fn sign(text: &[u8]) -> Option<Sign>
    ensures { result ≡ sign_of text.now }
{
    entry(&SIGNS, text)
}
