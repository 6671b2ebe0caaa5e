use occ_syntax::{Name, Width, same_width};

/// What a derivation keeps in view: the parameters that are variables, in order; the variables that take in what an input
/// brings, one for each width; and a name that stands nowhere in the program.
#[derive(Drop)]
pub struct Frame {
    pub params: Vec<(Name, Width)>,
    pub targets: Vec<(Name, Width)>,
    pub spare: Name,
}

impl Frame {
    /// The width of a parameter or target; None for any other name.
    pub fn width_of(&self, name: Name) -> Option<Width> {
        match width_in(self.params.as_slice(), name) {
            Some(width) => Some(width),
            None => width_in(self.targets.as_slice(), name),
        }
    }

    /// The target of that width; None where there is none.
    pub fn target(&self, width: Width) -> Option<Name> {
        for (name, other) in self.targets.as_slice() {
            if same_width(width, *other) {
                return Some(*name);
            }
        }
        None
    }

    /// Whether a variable stands before another in assignments: first the parameters, then the targets, in their orders, and
    /// then all others by their numbers.
    pub fn precedes(&self, left: Name, right: Name) -> bool {
        match is_met_first(self.params.as_slice(), left, right) {
            Some(is_left) => is_left,
            None => match is_met_first(self.targets.as_slice(), left, right) {
                Some(is_left) => is_left,
                None => left.0 < right.0,
            },
        }
    }
}

/// The width of a variable among these; None where it isn't.
fn width_in(variables: &[(Name, Width)], name: Name) -> Option<Width> {
    for (other, width) in variables {
        if *other == name {
            return Some(*width);
        }
    }
    None
}

/// Whether the left name, and not the right one, stands first among these variables; None where neither stands there.
fn is_met_first(variables: &[(Name, Width)], left: Name, right: Name) -> Option<bool> {
    for (name, _) in variables {
        if *name == left {
            return Some(left != right);
        }
        if *name == right {
            return Some(false);
        }
    }
    None
}
