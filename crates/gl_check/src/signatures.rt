//! Signatures of findings, each told from where it begins least, and what listed cycles are compared by.
ghost use Rattle.std.specs.Prelude.{◌≡◌, ◌≤◌, ◌<◌, List, All, length, slice_get, IfOk};
ghost use Rattle.std.specs.List.{filter_map};
ghost use Rattle.gl_edges.specs.declared.edge.Edge.{Edge};
ghost use Rattle.gl_edges.specs.declared.edge.Sample.{Sample};
ghost use Rattle.gl_findings.specs.Findings.{turned};
ghost use Rattle.gl_findings.specs.declared.listing.Listing.TheVariants.{Findings};
ghost use Rattle.gl_check.specs.Signatures.{AreClassesFor, compared_by, least_turn, lesser_list};

use gl_edges::{Edge, Sample};
use gl_event::Memory;
use gl_findings::Listing;
use gl_grounds::classes_of;
use std::alloc::Global;

// The classes of the edges at these positions.
fn signature_of(alloc: Global, classes: &[usize], positions: &[usize]) -> Result<Vec<usize>, Memory>
    requires { All (λ position. position < length classes.now) positions.now }
    ensures { IfOk result
        (λ signature. signature.items ≡ filter_map (slice_get classes.now) positions.now) }
{
    let mut signature = Vec::with_capacity(alloc, positions.len())?;
    for i in 0..positions.len() {
        signature.push(classes[positions[i]])?;
    }
    Ok(signature)
}

// The signature told from its place k on, round.
fn turned(alloc: Global, signature: &[usize], k: usize) -> Result<Vec<usize>, Memory>
    requires { k ≤ length signature.now }
    ensures { IfOk result (λ turn. turn.items ≡ turned k signature.now) }
{
    let mut turn = Vec::with_capacity(alloc, signature.len())?;
    turn.extend_from_slice(&signature[k..])?;
    turn.extend_from_slice(&signature[..k])?;
    Ok(turn)
}

// Of two lists the one that is no greater.
fn lesser(one: Vec<usize>, other: Vec<usize>) -> Vec<usize>
    ensures { result.items ≡ lesser_list one.items other.items }
{
    if one.as_slice().cmp(other.as_slice()).is_le() {
        one
    } else {
        other
    }
}

// The least of the turns of a signature.
fn least_turn(alloc: Global, signature: &[usize]) -> Result<Vec<usize>, Memory>
    ensures { IfOk result (λ least. least.items ≡ least_turn signature.now) }
{
    let mut least = Vec::from_slice(alloc, signature)?;
    for k in 0..signature.len() {
        let turn = turned(alloc, signature, k)?;
        least = lesser(least, turn);
    }
    Ok(least)
}

// The signature of the edges at these positions, told from where it begins least. As many turns as it
// has classes, each copied and compared.
fn told_signature(
    alloc: Global,
    classes: &[usize],
    positions: &[usize],
) -> Result<Vec<usize>, Memory>
    requires { All (λ position. position < length classes.now) positions.now }
    ensures { IfOk result
        (λ told. told.items ≡ least_turn (filter_map (slice_get classes.now) positions.now)) }
{
    let signature = signature_of(alloc, classes, positions)?;
    least_turn(alloc, signature.as_slice())
}

/// The classes by which the signatures of findings are told; cycles need none.
pub(crate) fn classes_for(
    alloc: Global,
    listing: Listing,
    table: &[(Edge, Sample)],
) -> Result<Vec<usize>, Memory>
    ensures { IfOk result (λ classes. AreClassesFor listing table.now classes.items) }
{
    match listing {
        Listing::Cycles => Ok(Vec::new(alloc)),
        Listing::Findings => classes_of(alloc, table),
    }
}

/// What the cycle at these positions is compared by.
pub(crate) fn compared_by(
    alloc: Global,
    listing: Listing,
    classes: &[usize],
    positions: Vec<usize>,
) -> Result<Vec<usize>, Memory>
    requires { listing ≡ Findings
        → All (λ position. position < length classes.now) positions.items }
    ensures { (table : List (Edge × Sample)) → AreClassesFor listing table classes.now
        → IfOk result (λ numbers. numbers.items ≡ compared_by listing table positions.items) }
{
    match listing {
        Listing::Cycles => Ok(positions),
        Listing::Findings => told_signature(alloc, classes, positions.as_slice()),
    }
}
