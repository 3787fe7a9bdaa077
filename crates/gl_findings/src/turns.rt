//! Signatures told from another of their classes on.
ghost use Rattle.std.specs.Prelude.{◌≡◌, ◌<◌, ◌≤◌, ◌+◌, ◌∷◌, ◌++◌, [], length};
ghost use Rattle.arrayvec.specs.ArrayVec.{array_vec_len};
ghost use Rattle.gl_filters.specs.declared.lengths.TheConstants.{LONGEST};
ghost use Rattle.gl_findings.specs.Findings.{begins_least, turned};

use arrayvec::ArrayVec;
use gl_filters::LONGEST;

/// A signature that a search looks at.
pub(crate) type Signature = ArrayVec<usize, LONGEST>;

// Adds classes at the end.
fn add(classes: &mut Signature, more: &[usize])
    requires { array_vec_len classes.old + length more.now ≤ LONGEST }
    ensures { classes.new.items ≡ classes.old.items ++ more.now }
{
    for &class in more {
        classes.push(class);
    }
}

/// The signature told from its place k on, round.
pub(crate) fn turned(signature: &[usize], k: usize) -> Signature
    requires within { k ≤ length signature.now }
    requires fits { length signature.now ≤ LONGEST }
    ensures { result.items ≡ turned k signature.now }
{
    let mut turned = ArrayVec::new();
    add(&mut turned, &signature[k..]);
    add(&mut turned, &signature[..k]);
    turned
}

/// The signature with one more class.
pub(crate) fn longer(signature: &[usize], class: usize) -> Signature
    requires { length signature.now < LONGEST }
    ensures { result.items ≡ signature.now ++ class ∷ [] }
{
    let mut longer = ArrayVec::new();
    add(&mut longer, signature);
    longer.push(class);
    longer
}

/// Whether the signature begins where it is to be told from.
pub(crate) fn begins_least(signature: &[usize]) -> bool
    requires { length signature.now ≤ LONGEST }
    ensures { result ≡ begins_least signature.now }
{
    for k in 0..signature.len() {
        if signature.cmp(turned(signature, k).as_slice()).is_gt() {
            return false;
        }
    }
    true
}
