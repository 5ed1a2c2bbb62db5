//! How a call that computed with secrets ends.

ghost use Rattle.std.specs.Prelude.{◌≡◌};

use argon2::parts::memory::wipe_stack;

/// Overwrites the stack below an exported call, and returns `code`. The functions that the export
/// called kept H0, blocks or the tag in their frames there. They are never inlined, since the
/// export's own frame is not overwritten.
pub fn cleared(code: u32) -> u32
    ensures { result ≡ code }
{
    wipe_stack();
    code
}
