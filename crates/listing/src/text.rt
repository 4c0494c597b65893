// Instructions in assembler syntax.
ghost use Rattle.std.specs.Prelude.{◌≡◌, IfOk, string_bytes};
ghost use Rattle.isa.specs.Text.{instruction_text};

use isa::Instruction;
use std::alloc::{AllocError, Global};

// An instruction in assembler syntax.
pub fn instruction_text(heap: Global, instruction: Instruction) -> Result<String, AllocError>
    ensures { IfOk result (λ t. string_bytes t ≡ instruction_text instruction) }
{
    instruction.to_string(heap)
}
