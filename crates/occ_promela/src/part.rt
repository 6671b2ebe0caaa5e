//! The parts of a program.

ghost use Rattle.std.specs.Prelude.{◌≡◌, false};
ghost use Rattle.occ_syntax.specs.Declarations.{is_declaration};
ghost use Rattle.occ_syntax.specs.View.{tree};

use crate::model::Model;
use crate::text::{begin, line, put};
use occ_syntax::{Expr, Guard, Memory, Name, Proc, Wait, push_number};

impl Model {
    /// Adds a part at a level. A row of declarations is gone through in a loop, since there may be thousands.
    #[cycle(part)]
    pub(crate) fn put_part(
        &mut self,
        text: &mut Vec<u8>,
        level: usize,
        part: &Proc,
    ) -> Result<(), Memory> {
        let outside = self.scope.entries.len();
        let mut rest = part;
        while let Some((name, kind, body)) = rest.declared() {
            self.enter(name, kind)?;
            self.put_choice(text, level, name, kind)?;
            rest = body;
        }
        self.put_undeclared(text, level, rest)?;
        self.scope.entries.truncate(outside);
        Ok(())
    }

    #[tactic(auto, unfolding(crate::specs::tree))]
    #[cycle(part)]
    fn put_undeclared(
        &mut self,
        text: &mut Vec<u8>,
        level: usize,
        part: &Proc,
    ) -> Result<(), Memory>
        requires { is_declaration (tree part.now) ≡ false }
    {
        match part {
            Proc::Skip => line(text, level, b"skip;"),
            Proc::Stop => line(text, level, b"false;"),
            Proc::Assign { vars, values } => {
                self.put_assignment(text, level, vars.items(), values.items())
            }
            Proc::Input { chan, var } => {
                begin(text, level)?;
                self.put_input(text, *chan, *var, None)?;
                put(text, b";\n")
            }
            Proc::Output { chan, value } => {
                begin(text, level)?;
                self.put_output(text, *chan, value, None)?;
                put(text, b";\n")
            }
            Proc::Seq(parts) => self.put_row(text, level, parts.items()),
            Proc::Par(parts) => self.put_par(text, level, parts.items()),
            Proc::If(choices) => self.put_choices(text, level, choices.items()),
            Proc::Alt(alternatives) => self.put_branches(text, level, alternatives.items()),
            Proc::Var { .. } | Proc::Chan { .. } => unreachable!(),
        }
    }

    #[cycle(part)]
    fn put_row(&mut self, text: &mut Vec<u8>, level: usize, parts: &[Proc]) -> Result<(), Memory> {
        line(text, level, b"skip;")?;
        for part in parts {
            self.put_part(text, level, part)?;
        }
        Ok(())
    }

    /// Adds the run of the parts of a PAR, and waits until all have counted themselves.
    #[cycle(part)]
    fn put_par(&mut self, text: &mut Vec<u8>, level: usize, parts: &[Proc]) -> Result<(), Memory> {
        let counter = self.number();
        put(&mut self.head, b"byte n")?;
        push_number(&mut self.head, counter)?;
        put(&mut self.head, b";\n")?;
        begin(text, level)?;
        put(text, b"atomic { skip")?;
        for part in parts {
            let number = self.number();
            self.put_process(number, counter, part)?;
            put(text, b"; run p")?;
            push_number(text, number)?;
            put(text, b"()")?;
        }
        put(text, b" };\n")?;
        begin(text, level)?;
        put(text, b"n")?;
        push_number(text, counter)?;
        put(text, b" == ")?;
        push_number(text, parts.len() as u64)?;
        put(text, b";\n")
    }

    /// Adds the process of a part of a PAR.
    #[cycle(part)]
    fn put_process(&mut self, number: u64, counter: u64, part: &Proc) -> Result<(), Memory> {
        let mut own = Vec::new(self.alloc);
        put(&mut own, b"\nproctype p")?;
        push_number(&mut own, number)?;
        put(&mut own, b"() {\n")?;
        self.put_part(&mut own, 1, part)?;
        put(&mut own, b"  n")?;
        push_number(&mut own, counter)?;
        put(&mut own, b"++\n}\n")?;
        put(&mut self.parts, own.as_slice())
    }

    #[cycle(part)]
    fn put_choices(
        &mut self,
        text: &mut Vec<u8>,
        level: usize,
        choices: &[(Expr, Proc)],
    ) -> Result<(), Memory> {
        for (condition, part) in choices {
            line(text, level, b"if")?;
            begin(text, level)?;
            put(text, b":: ")?;
            self.scope.put_expression(text, condition)?;
            put(text, b" ->\n")?;
            self.put_part(text, level.saturating_add(1), part)?;
            line(text, level, b":: else ->")?;
        }
        line(text, level, b"false;")?;
        for _choice in choices {
            line(text, level, b"fi;")?;
        }
        Ok(())
    }

    #[cycle(part)]
    fn put_branches(
        &mut self,
        text: &mut Vec<u8>,
        level: usize,
        branches: &[(Guard, Proc)],
    ) -> Result<(), Memory> {
        if branches.is_empty() {
            return line(text, level, b"false;");
        }
        line(text, level, b"if")?;
        for (guard, part) in branches {
            begin(text, level)?;
            put(text, b":: ")?;
            self.put_guard(text, guard)?;
            put(text, b" ->\n")?;
            self.put_part(text, level.saturating_add(1), part)?;
        }
        line(text, level, b"fi;")
    }

    fn put_guard(&self, text: &mut Vec<u8>, guard: &Guard) -> Result<(), Memory> {
        let condition = match &guard.condition {
            Expr::Bool(true) => None,
            condition => Some(condition),
        };
        match &guard.wait {
            Wait::Skip => self.scope.put_expression(text, &guard.condition),
            Wait::Get { chan, var } => self.put_input(text, *chan, *var, condition),
            Wait::Put { chan, value } => self.put_output(text, *chan, value, condition),
        }
    }

    /// Adds the input of a guard. Where the condition is false it is one from a channel to which nobody outputs. The value is kept until
    /// the input is over, since Spin looks at the condition once more.
    fn put_input(
        &self,
        text: &mut Vec<u8>,
        chan: Name,
        var: Name,
        condition: Option<&Expr>,
    ) -> Result<(), Memory> {
        if condition.is_some() {
            put(text, b"atomic { ")?;
            self.put_channel(text, chan, condition, b"0")?;
            put(text, b"?t0 -> ")?;
            self.scope.put_name(text, var)?;
            return put(text, b" = t0 }");
        }
        self.put_channel(text, chan, None, b"0")?;
        put(text, b"?")?;
        self.scope.put_name(text, var)
    }

    /// Adds an output. Where the condition is false it is one to a channel from which nobody inputs.
    fn put_output(
        &self,
        text: &mut Vec<u8>,
        chan: Name,
        value: &Expr,
        condition: Option<&Expr>,
    ) -> Result<(), Memory> {
        self.put_channel(text, chan, condition, b"1")?;
        put(text, b"!")?;
        self.scope.put_expression(text, value)
    }

    fn put_channel(
        &self,
        text: &mut Vec<u8>,
        chan: Name,
        condition: Option<&Expr>,
        other: &[u8],
    ) -> Result<(), Memory> {
        put(text, b"ch[")?;
        let Some(condition) = condition else {
            self.scope.put_name(text, chan)?;
            return put(text, b"]");
        };
        put(text, b"(")?;
        self.scope.put_expression(text, condition)?;
        put(text, b" -> ")?;
        self.scope.put_name(text, chan)?;
        put(text, b" : ")?;
        put(text, other)?;
        put(text, b")]")
    }

    /// Adds an assignment. All values are kept until the last is known.
    fn put_assignment(
        &mut self,
        text: &mut Vec<u8>,
        level: usize,
        vars: &[Name],
        values: &[Expr],
    ) -> Result<(), Memory> {
        self.most = self.most.max(values.len());
        begin(text, level)?;
        put(text, b"d_step { skip")?;
        for (place, value) in values.iter().enumerate() {
            put(text, b"; t")?;
            push_number(text, place as u64)?;
            put(text, b" = ")?;
            self.scope.put_expression(text, value)?;
        }
        for (place, name) in vars.iter().enumerate() {
            put(text, b"; ")?;
            self.scope.put_name(text, *name)?;
            put(text, b" = t")?;
            push_number(text, place as u64)?;
        }
        put(text, b" };\n")
    }
}
