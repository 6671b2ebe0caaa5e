/// Takes a part apart for a law: where the part is of the named form, the expression over the form's fields, and
/// otherwise the answer that the law doesn't hold.
#[macro_export]
macro_rules! shape {
    ($part:expr, $form:ident => $body:expr) => {
        match $crate::opened($part) {
            $crate::Form::$form => $body,
            _ => Ok(false),
        }
    };
    ($part:expr, $form:ident($($field:pat),*) => $body:expr) => {
        match $crate::opened($part) {
            $crate::Form::$form($($field),*) => $body,
            _ => Ok(false),
        }
    };
}

/// Takes the two parts of a law apart: where both are of the named forms, the expression over the fields of both, and
/// otherwise the answer that the law doesn't hold.
#[macro_export]
macro_rules! law_case {
    ($left:expr, $first:ident $(($($field:pat),*))?; $right:expr, $second:ident $(($($other:pat),*))? => $body:expr) => {
        match $crate::opened($left) {
            $crate::Form::$first $(($($field),*))? => match $crate::opened($right) {
                $crate::Form::$second $(($($other),*))? => $body,
                _ => Ok(false),
            },
            _ => Ok(false),
        }
    };
}
