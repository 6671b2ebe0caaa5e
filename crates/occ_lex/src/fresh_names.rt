//! Names that a program doesn't have yet, and tables of names that grow by names of the language.

ghost use Rattle.std.specs.Prelude.{◌≡◌, ◌<◌, true, IfOk, OnErr, OnOk, length};
ghost use Rattle.occ_base.specs.Names.{place_of, with_text};
ghost use Rattle.occ_lex.specs.Growth.{GrowsByNames, numbered_text};
ghost use Rattle.occ_lex.specs.Spelling.{is_letter};

use occ_base::{Memory, Name, Names, push_number};
use std::alloc::Global;

/// A letter, a dot and a number in decimal.
fn text_of(alloc: Global, letter: u8, number: u64) -> Result<Vec<u8>, Memory>
    ensures { IfOk result (λ text. text.items ≡ numbered_text letter number) }
{
    let mut text = Vec::new(alloc);
    text.push(letter)?;
    text.push(b'.')?;
    push_number(&mut text, number)?;
    Ok(text)
}

/// The name that is a letter, a dot and a number in decimal. It is in the table afterwards. Where memory runs out, the table is
/// as before.
#[tactic(auto, using(crate::proofs::FreshPlaced::place_there))]
pub fn numbered(alloc: Global, names: &mut Names, letter: u8, number: u64) -> Result<Name, Memory>
    requires { is_letter letter ≡ true }
    ensures name { IfOk result (λ name. name.0 ≡ place_of names.old (numbered_text letter number)) }
    ensures table { OnOk result (names.new ≡ with_text names.old (numbered_text letter number)) }
    ensures err { OnErr result (names.new ≡ names.old) }
    ensures within { IfOk result (λ name. name.0 < length names.new) }
    ensures grown { GrowsByNames names.old names.new }
{
    let text = text_of(alloc, letter, number)?;
    names.intern(text.as_slice())
}
