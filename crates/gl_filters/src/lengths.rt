//! How long a path may be.
ghost use Rattle.std.specs.Prelude.{◌≡◌, ◌<◌, ◌∷◌, ◌++◌, [], length};
ghost use Rattle.gl_filters.specs.declared.lengths.TheConstants.{LONGEST};

use crate::query::MAX_LEN;
use arrayvec::ArrayVec;

/// How many edges a path may have: as many as a cycle that may be asked for.
pub const LONGEST: usize = MAX_LEN as usize;

/// The path with one more edge.
pub fn longer_path(path: &[usize], next: usize) -> ArrayVec<usize, LONGEST>
    requires { length path.now < LONGEST }
    ensures { result.items ≡ path.now ++ next ∷ [] }
{
    let mut longer = ArrayVec::new();
    for &i in path {
        longer.push(i);
    }
    longer.push(next);
    longer
}
