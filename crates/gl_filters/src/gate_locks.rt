//! Gate locks: locks that two guard sets have in common, and not both shared.
ghost use Rattle.std.specs.Prelude.{◌≡◌};
ghost use Rattle.std.specs.List.{list_any};
ghost use Rattle.gl_edges.specs.Clashes.{clash_on};

use gl_edges::Guard;

// Whether the guard clashes with one of these.
pub(crate) fn clashes_with_any(guard: &Guard, others: &[Guard]) -> bool
    ensures { result ≡ list_any (clash_on guard.now) others.now }
{
    others.iter().any(|other| guard.clashes_with(other))
}
