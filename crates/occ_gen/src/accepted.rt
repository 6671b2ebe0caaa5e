//! The text of each generated program is accepted. These are laws, and no code: each is a function without a body of its own whose
//! contract is the law.

ghost use Rattle.std.specs.Prelude.{ℕ, ◌≡◌, ◌≤◌, List, []};
ghost use Rattle.occ_gen.specs.Programs.{program_text};
ghost use Rattle.occ_gen.specs.declared.shape.Shape.{Shape};
ghost use Rattle.occ_gen.specs.Accepted.{IsTextOfAccepted};
ghost use Rattle.occ_print_back.specs.occ_parse.Reading.{IsRead, IsRefused};
ghost use Rattle.occ_print_back.specs.occ_parse.declared.bound.Bound.TheVariants as bound;
ghost use Rattle.occ_print_back.specs.occ_parse.declared.fault.ParseFault.{ParseFault};
ghost use Rattle.occ_script.specs.occ_syntax.View.{tree};
ghost use Rattle.occ_script.specs.occ_syntax.declared.scope.Program.{Program};
ghost use Rattle.occ_print_back.specs.occ_usage.Accepted.{usage_faults};

use occ_print_back::one_reading;

/// The text of each generated program, a chain of 1 to 48 stages of each of the three kinds, is that of an accepted program.
pub fn generated_programs_are_accepted()
    ensures { (shape : Shape) (n : ℕ) → 1 ≤ n → n ≤ 48 → IsTextOfAccepted (program_text shape n) }
{}

/// So such a text isn't refused, and the program that it is read as has no fault of usage.
pub fn generated_programs_are_never_refused()
    ensures read { (shape : Shape) (n : ℕ) (fault : ParseFault) → 1 ≤ n → n ≤ 48
        → IsRefused bound.Program (program_text shape n) [] fault → ⊥ }
    ensures used { (shape : Shape) (n : ℕ) (new : List (List ℕ)) (program : Program) (lines : List ℕ) → 1 ≤ n → n ≤ 48
        → IsRead bound.Program (program_text shape n) [] new program.name program.params (tree program.body) lines
        → usage_faults program ≡ [] }
{
    generated_programs_are_accepted();
    one_reading();
}
