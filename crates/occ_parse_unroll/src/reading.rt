ghost use Rattle.std.specs.Prelude.{◌≡◌};
ghost use Rattle.occ_parse_forms.specs.Shape.{shape};
ghost use Rattle.occ_parse_unroll.specs.Reading.{IsCondition, IsDeclaration, IsGroup, IsNested, is_guard as is_guard_line};

use occ_parse_forms::{Declaration, Form, Group, Phrase, Times};

/// The declaration that a line is, where it is one.
pub fn declaration(form: &Form) -> Option<&Declaration>
    ensures { IsDeclaration (shape form.now) result }
{
    match form {
        Form::Declare(declaration) => Some(declaration),
        _ => None,
    }
}

/// The construct that a line begins, where it begins one.
pub fn group(form: &Form) -> Option<(Group, Option<Times>)>
    ensures { IsGroup (shape form.now) result }
{
    match form {
        Form::Group { group, times } => Some((*group, *times)),
        _ => None,
    }
}

/// How often a line that begins that construct has it, where it begins one.
pub fn nested(form: &Form, word: Group) -> Option<Option<Times>>
    ensures { IsNested (shape form.now) word result }
{
    match form {
        Form::Group { group, times } if *group == word => Some(*times),
        _ => None,
    }
}

/// The condition that a line is, where it is one.
pub fn condition(form: &Form) -> Option<&Phrase>
    ensures { IsCondition (shape form.now) result }
{
    match form {
        Form::Condition(phrase) => Some(phrase),
        _ => None,
    }
}

/// Whether a line is a guard where it stands among alternatives.
pub fn is_guard(form: &Form) -> bool
    ensures { result ≡ is_guard_line (shape form.now) }
{
    match form {
        Form::Input { .. } | Form::Output { .. } | Form::Guard { .. } => true,
        _ => false,
    }
}
