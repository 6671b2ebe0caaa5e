use occ_tool_run::Loaded;

/// A file of a program: its name, and what was read of it.
#[derive(Clone, Copy)]
pub struct Given<'a> {
    pub name: &'a str,
    pub text: &'a Loaded,
}
