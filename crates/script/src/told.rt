// What is told of a line that is wrong.
ghost use Rattle.std.specs.Prelude.{◌≡◌, IfOk, string_bytes};
ghost use Rattle.script.specs.Told.{fault_text};

use super::faults::Fault;
use std::alloc::{AllocError, Global};

// What is wrong with the line of this number.
pub fn fault_text(heap: Global, line_number: usize, fault: Fault) -> Result<String, AllocError>
    ensures { IfOk result (λ t. string_bytes t ≡ fault_text line_number fault) }
{
    format!(in heap; "line {line_number}: {fault}")
}
