//! The whole model: the program, and what stands outside.

use crate::expression::greatest;
use crate::model::Model;
use crate::scope::Scope;
use crate::text::put;
use crate::texts::Texts;
use occ_syntax::{Dir, Kind, Memory, Name, Names, Program, push_number};
use std::alloc::Global;

/// The model of a program that was read with a table of names. Nothing is said of the text: what Spin finds in it is tested.
pub fn model_of(alloc: Global, names: Names, program: &Program) -> Result<Vec<u8>, Memory> {
    let mut model = Model {
        alloc,
        scope: Scope {
            texts: Texts::new(names)?,
            entries: Vec::new(alloc),
        },
        head: Vec::new(alloc),
        parts: Vec::new(alloc),
        numbers: 0,
        channels: 2,
        most: 1,
    };
    let params = program.params.items();
    let mut body = Vec::new(alloc);
    model.put_start(&mut body, params)?;
    model.put_part(&mut body, 1, &program.body)?;
    put(&mut body, b"}\n")?;
    model.put_outside(&mut body, params)?;
    model.whole(body.as_slice())
}

/// What the model begins with: a process can record the last event.
const RECORD: &[u8] =
    b"#ifdef EVENTS\nbyte channel = 0; byte value;\n#define SEEN(c, v) channel = c; value = v\n#else\n#define SEEN(c, v) skip\n#endif\n\n";

impl Model {
    /// Adds the begin of the program: the state in which it begins is chosen.
    fn put_start(&mut self, text: &mut Vec<u8>, params: &[(Name, Kind)]) -> Result<(), Memory> {
        put(text, b"\nactive proctype program() {\n")?;
        for (name, kind) in params {
            self.enter(*name, *kind)?;
            self.put_choice(text, 1, *name, *kind)?;
        }
        self.put_state(text, params)
    }

    /// Adds the line that tells the state in which the program begins.
    fn put_state(&self, text: &mut Vec<u8>, params: &[(Name, Kind)]) -> Result<(), Memory> {
        let mut form = Vec::new(self.alloc);
        let mut values = Vec::new(self.alloc);
        for (name, kind) in params {
            if let Kind::Var(_) = kind {
                if !form.is_empty() {
                    put(&mut form, b" ")?;
                }
                put(&mut form, b"%d")?;
                put(&mut values, b", ")?;
                self.scope.put_name(&mut values, *name)?;
            }
        }
        put(text, b"  printf(\"STATE [")?;
        put(text, form.as_slice())?;
        put(text, b"]\\n\"")?;
        put(text, values.as_slice())?;
        put(text, b");\n")
    }

    /// Adds the process that is ready for each event of the interface at any time.
    fn put_outside(&self, text: &mut Vec<u8>, params: &[(Name, Kind)]) -> Result<(), Memory> {
        put(
            text,
            b"\nactive proctype outside() {\n  byte got;\nend:\n  do\n  :: false\n",
        )?;
        for (name, kind) in params {
            match kind {
                Kind::Chan(width, Some(Dir::Input)) => {
                    self.put_inputs(text, *name, width.bits())?
                }
                Kind::Chan(_, _) => self.put_outputs(text, *name)?,
                Kind::Var(_) => {}
            }
        }
        put(text, b"  od\n}\n")
    }

    fn put_inputs(&self, text: &mut Vec<u8>, name: Name, bits: u8) -> Result<(), Memory> {
        for value in 0..=greatest(bits) {
            put(text, b"  :: atomic { ch[")?;
            self.scope.put_name(text, name)?;
            put(text, b"]!")?;
            push_number(text, value)?;
            put(text, b" -> printf(\"")?;
            put(text, self.scope.texts.get(name))?;
            put(text, b"?")?;
            push_number(text, value)?;
            put(text, b"\\n\"); SEEN(")?;
            self.scope.put_name(text, name)?;
            put(text, b", ")?;
            push_number(text, value)?;
            put(text, b") }\n")?;
        }
        Ok(())
    }

    fn put_outputs(&self, text: &mut Vec<u8>, name: Name) -> Result<(), Memory> {
        put(text, b"  :: atomic { ch[")?;
        self.scope.put_name(text, name)?;
        put(text, b"]?got -> printf(\"")?;
        put(text, self.scope.texts.get(name))?;
        put(text, b"!%d\\n\", got); SEEN(")?;
        self.scope.put_name(text, name)?;
        put(text, b", got); got = 0 }\n")
    }

    /// The whole text, with the processes of the program and of the outside behind all others.
    fn whole(&self, body: &[u8]) -> Result<Vec<u8>, Memory> {
        let mut text = Vec::from_slice(self.alloc, self.head.as_slice())?;
        for place in 0..self.most {
            put(&mut text, b"hidden byte t")?;
            push_number(&mut text, place as u64)?;
            put(&mut text, b";\n")?;
        }
        put(&mut text, b"chan ch[")?;
        push_number(&mut text, self.channels)?;
        put(&mut text, b"] = [0] of { byte };\n")?;
        put(&mut text, RECORD)?;
        put(&mut text, self.parts.as_slice())?;
        put(&mut text, body)?;
        Ok(text)
    }
}
