//! The lines for standard error that say why a text is refused.
ghost use Rattle.std.specs.Prelude.{◌≡◌, IfOk};
ghost use Rattle.gl_commands.specs.RefusalLines.{fault_line, inconsistent_line};

use gl_event::{Memory, Segment};
use gl_report::{put_number, thread_name};
use gl_std::{Names, StdKind};
use std::alloc::Global;

/// What is said of a fault in a line.
pub(crate) fn fault_line(alloc: Global, line: u64, kind: StdKind) -> Result<Vec<u8>, Memory>
    ensures { IfOk result (λ t. t.items ≡ fault_line line kind) }
{
    let mut out = Vec::new(alloc);
    out.extend_from_slice(b"goodlock: line ")?;
    put_number(&mut out, line)?;
    out.extend_from_slice(b": ")?;
    out.extend_from_slice(kind.text().as_bytes())?;
    out.extend_from_slice(b"\n")?;
    Ok(out)
}

/// What is said of a segment that is before itself.
pub(crate) fn inconsistent_line(
    alloc: Global,
    names: &Names,
    at: Segment,
) -> Result<Vec<u8>, Memory>
    ensures { IfOk result (λ t. t.items ≡ inconsistent_line names.now at) }
{
    let Segment { thread, index } = at;
    let mut out = Vec::new(alloc);
    out.extend_from_slice(b"goodlock: inconsistent: ")?;
    out.extend_from_slice(thread_name(names, thread))?;
    out.extend_from_slice(b".")?;
    put_number(&mut out, u64::from(index))?;
    out.extend_from_slice(b" precedes itself\n")?;
    Ok(out)
}
