ghost use Rattle.std.specs.Prelude.{◌<◌, IfOk, length};

use crate::tests::known::{params_below, part_below};
use occ_desk::{Dir, Memory, Name, Names, Width};
use occ_gen::{line_tokens, print, print_part};
use occ_syntax::{
    Alternatives, Choices, Expr, Exprs, Guard, Kind, NameList, Op, Proc, Procs, Program, Scope,
    Wait,
};
use std::alloc::Global;
use std::process::Abort;

const WORD4: Width = Width::Word(4);

const X: Name = Name(0);

const Y: Name = Name(1);

const C: Name = Name(2);

const D: Name = Name(3);

const FIRST: Name = Name(4);

const SECOND: Name = Name(5);

const P: Name = Name(6);

const B: Name = Name(7);

const TEXTS: [&str; 8] = ["x", "y", "c", "d", "a[0]", "a[1]", "p", "b"];

// The table of the names above, and a name behind them.
fn table(names: &mut Names) -> Result<Name, Memory>
    ensures { IfOk result (λ last. last.0 < length names.new) }
{
    for text in &TEXTS {
        names.intern(text.as_bytes())?;
    }
    names.intern(b"last")
}

fn printed(alloc: Global, program: &Program) -> Result<Option<Vec<u8>>, Memory> {
    let mut names = Names::new(alloc);
    let last = table(&mut names)?;
    if program.name.0 <= last.0
        && params_below(program.params.items(), last.0)
        && part_below(&program.body, last.0)
    {
        return Ok(Some(print(alloc, &names, program)?));
    }
    Ok(None)
}

fn part_printed(alloc: Global, part: &Proc, level: u32) -> Result<Option<Vec<u8>>, Memory> {
    let mut names = Names::new(alloc);
    let last = table(&mut names)?;
    if part_below(part, last.0) {
        return Ok(Some(print_part(alloc, &names, part, level)?));
    }
    Ok(None)
}

fn word(value: u8) -> Expr {
    Expr::Word { bits: 4, value }
}

fn two(alloc: Global, op: Op, left: Expr, right: Expr) -> Result<Expr, Memory> {
    Ok(Expr::Two(op, Box::new(alloc, left)?, Box::new(alloc, right)?))
}

fn not(alloc: Global, operand: Expr) -> Result<Expr, Memory> {
    Ok(Expr::Not(Box::new(alloc, operand)?))
}

fn flip(alloc: Global, operand: Expr) -> Result<Expr, Memory> {
    Ok(Expr::Flip(Box::new(alloc, operand)?))
}

// b AND (NOT b) AND (b OR TRUE)
fn chain(alloc: Global) -> Result<Expr, Memory> {
    let front = two(alloc, Op::And, Expr::Var(B), not(alloc, Expr::Var(B))?)?;
    let back = two(alloc, Op::Or, Expr::Var(B), Expr::Bool(true))?;
    two(alloc, Op::And, front, back)
}

fn assignment(alloc: Global) -> Result<Proc, Memory> {
    let mut vars = NameList::new(alloc);
    vars.push(FIRST)?;
    vars.push(SECOND)?;
    let mut values = Exprs::new(alloc);
    values.push(Expr::Var(SECOND))?;
    values.push(two(alloc, Op::Plus, Expr::Var(FIRST), word(3))?)?;
    Ok(Proc::Assign { vars, values })
}

fn alternatives(alloc: Global) -> Result<Proc, Memory> {
    let mut list = Alternatives::new(alloc);
    let input = Guard {
        condition: Expr::Bool(true),
        wait: Wait::Get { chan: C, var: X },
    };
    list.push((input, Proc::Skip))?;
    let conditional = Guard {
        condition: Expr::Var(B),
        wait: Wait::Get { chan: C, var: Y },
    };
    let sum = two(alloc, Op::Plus, word(3), word(4))?;
    let value = two(alloc, Op::Less, sum, word(8))?;
    list.push((conditional, Proc::Output { chan: D, value }))?;
    let ready = Guard {
        condition: Expr::Bool(true),
        wait: Wait::Skip,
    };
    list.push((ready, Proc::Stop))?;
    Ok(Proc::Alt(list))
}

fn choices(alloc: Global) -> Result<Proc, Memory> {
    let mut list = Choices::new(alloc);
    list.push((chain(alloc)?, Proc::Skip))?;
    let sum = two(alloc, Op::Minus, flip(alloc, Expr::Var(X))?, word(1))?;
    let mut parts = Procs::new(alloc);
    parts.push(Proc::Stop)?;
    list.push((two(alloc, Op::Equal, sum, word(2))?, Proc::Par(parts)))?;
    Ok(Proc::If(list))
}

fn example(alloc: Global) -> Result<Program, Memory> {
    let mut params = Scope::new(alloc);
    params.push((X, Kind::Var(WORD4)))?;
    params.push((FIRST, Kind::Var(Width::Bool)))?;
    params.push((C, Kind::Chan(WORD4, Some(Dir::Input))))?;
    params.push((D, Kind::Chan(Width::Bool, Some(Dir::Output))))?;
    let mut parts = Procs::new(alloc);
    parts.push(assignment(alloc)?)?;
    parts.push(alternatives(alloc)?)?;
    parts.push(choices(alloc)?)?;
    let inner = Proc::Seq(parts).declare(alloc, SECOND, Kind::Chan(WORD4, None))?;
    Ok(Program {
        name: P,
        params,
        body: inner.declare(alloc, Y, Kind::Var(WORD4))?,
    })
}

const EXAMPLE: &str = "PROC p (WORD4 x, BOOL a[0], CHAN OF WORD4 c?, CHAN OF BOOL d!)
  WORD4 y:
  CHAN OF WORD4 a[1]:
  SEQ
    a[0], a[1] := a[1], a[0] PLUS 3
    ALT
      c ? x
        SKIP
      b & c ? y
        d ! (3(WORD4) PLUS 4(WORD4)) < 8(WORD4)
      TRUE & SKIP
        STOP
    IF
      b AND (NOT b) AND (b OR TRUE)
        SKIP
      ((~ x) MINUS 1) = 2
        PAR
          STOP
:
";

#[test]
fn a_program_is_printed(rt: HostRuntime) -> Result<(), Memory> {
    let alloc = rt.alloc();
    let program = example(alloc)?;
    let Some(text) = printed(alloc, &program)? else {
        rt.abort()
    };
    assert_eq!(rt; text.as_slice(), EXAMPLE.as_bytes());
    assert_eq!(rt; line_tokens(&program.body), 18);
    Ok(())
}

#[test]
fn a_part_is_printed_at_its_level(rt: HostRuntime) -> Result<(), Memory> {
    let alloc = rt.alloc();
    let mut parts = Procs::new(alloc);
    parts.push(Proc::Input {
        chan: C,
        var: SECOND,
    })?;
    let part = Proc::Seq(parts).declare(alloc, X, Kind::Var(Width::Bool))?;
    let Some(text) = part_printed(alloc, &part, 2)? else {
        rt.abort()
    };
    assert_eq!(rt;
        text.as_slice(),
        b"    BOOL x:\n    SEQ\n      c ? a[1]\n".as_slice()
    );
    assert_eq!(rt; line_tokens(&part), 3);
    let header = Program {
        name: P,
        params: Scope::new(alloc),
        body: part,
    };
    let Some(text) = printed(alloc, &header)? else {
        rt.abort()
    };
    assert_eq!(rt;
        text.as_slice(),
        b"PROC p ()\n  BOOL x:\n  SEQ\n    c ? a[1]\n:\n".as_slice()
    );
    Ok(())
}
