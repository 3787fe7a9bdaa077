//! Lists that grow whole or not at all.
ghost use Rattle.std.specs.Prelude.{◌≡◌, ◌<◌, [], ◌∷◌, ◌++◌, is_ok, IsOk, OnOk, if◌then◌else◌};
ghost use Rattle.std.specs.Vec.{vec_len, vec_capacity};

use crate::Memory;

/// Appends an element. Where the list has room for it no memory is taken, and else an amortised
/// constant number of elements is moved; where there is no memory the list stays as it is.
pub fn append<X: Copy>(xs: &mut Vec<X>, x: X) -> Result<(), Memory>
    ensures items { xs.new.items
        ≡ (if is_ok result then xs.old.items ++ x ∷ [] else xs.old.items) }
    ensures room { vec_len xs.old < vec_capacity xs.old → IsOk result }
{
    xs.push(x)?;
    Ok(())
}

/// Appends an element to each of two lists, or changes neither. Where both have room no memory is
/// taken.
pub fn append_both<X: Copy, Y: Copy>(
    xs: &mut Vec<X>,
    ys: &mut Vec<Y>,
    x: X,
    y: Y,
) -> Result<(), Memory>
    ensures first { xs.new.items
        ≡ (if is_ok result then xs.old.items ++ x ∷ [] else xs.old.items) }
    ensures second { ys.new.items
        ≡ (if is_ok result then ys.old.items ++ y ∷ [] else ys.old.items) }
    ensures room { vec_len xs.old < vec_capacity xs.old → vec_len ys.old < vec_capacity ys.old
        → IsOk result }
{
    make_room(xs, ys)?;
    keep_both(xs, ys, x, y);
    Ok(())
}

/// Makes room for one more element in each of two lists, whose elements stay, so that the next
/// append to either takes no memory. Where both have room already no memory is taken.
pub fn make_room<X: Copy, Y: Copy>(xs: &mut Vec<X>, ys: &mut Vec<Y>) -> Result<(), Memory>
    ensures first { xs.new.items ≡ xs.old.items }
    ensures second { ys.new.items ≡ ys.old.items }
    ensures first_room { OnOk result (vec_len xs.new < vec_capacity xs.new) }
    ensures second_room { OnOk result (vec_len ys.new < vec_capacity ys.new) }
    ensures room { vec_len xs.old < vec_capacity xs.old → vec_len ys.old < vec_capacity ys.old
        → IsOk result }
{
    xs.reserve(1)?;
    ys.reserve(1)?;
    Ok(())
}

/// Appends an element to each of two lists that have room for it. Each is written where it belongs: a call that may be
/// refused memory gets its element on the stack, since it may hand it back.
#[inline(always)]
pub fn keep_both<X: Copy, Y: Copy>(xs: &mut Vec<X>, ys: &mut Vec<Y>, x: X, y: Y)
    requires first_room { vec_len xs.old < vec_capacity xs.old }
    requires second_room { vec_len ys.old < vec_capacity ys.old }
    ensures first { xs.new.items ≡ xs.old.items ++ x ∷ [] }
    ensures second { ys.new.items ≡ ys.old.items ++ y ∷ [] }
{
    xs.push_reserved(x);
    ys.push_reserved(y);
}
