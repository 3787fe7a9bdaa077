//! One name, as a key of a set.
ghost use Rattle.std.specs.Prelude.{◌≡◌, [], ◌∷◌, IfOk};
ghost use Rattle.std.specs.Cmp.{partial_equiv_from_equiv};
ghost use Rattle.std.specs.Cmp.Lexicographic.{bytes_decides, nat_list_eq_equiv};
ghost use Rattle.std.specs.Str.{bytes_eq};
ghost use Rattle.std.proofs.Common.{ap};

use gl_bytes::is_same;
use indexmap::Equivalent;
use smallvec::SmallVec;
use std::alloc::{AllocError, Global};
use std::hash::{Hash, Hasher};
use std::marker::Model;

// A name of up to so many bytes needs no memory of its own.
const INLINE: usize = 24;

/// The bytes of a name. They are hashed all at once, where a `Vec<u8>` hashes each byte in turn.
#[derive(Drop)]
pub(crate) struct Name {
    bytes: SmallVec<u8, INLINE>,
}

impl Model for Name {
    ghost use Rattle.std.specs.Prelude.{ℕ, List};

    ghost Value = { List ℕ };

    ghost view = { λ n. n.bytes.items };
}

impl Name {
    /// The name of these bytes, which are copied.
    pub(crate) fn new(alloc: Global, bytes: &[u8]) -> Result<Name, AllocError>
        ensures { IfOk result (λ name. name ≡ bytes.now) }
    {
        Ok(Name {
            bytes: SmallVec::from_slice(alloc, bytes)?,
        })
    }

    /// The bytes.
    #[inline(always)]
    pub(crate) fn as_bytes(&self) -> &[u8]
        ensures { result.now ≡ self.now }
    {
        self.bytes.as_slice()
    }
}

impl PartialEq for Name {
    ghost eq = { bytes_eq };

    ghost laws = { partial_equiv_from_equiv nat_list_eq_equiv };

    fn eq(&self, other: &Name) -> bool {
        is_same(self.as_bytes(), other.as_bytes())
    }
}

impl Eq for Name {
    ghost laws = { nat_list_eq_equiv };
}

impl Hash for Name {
    ghost hash_input = { λ name. name ∷ [] };

    ghost respects_eq = { λ x y same. ap (λ bytes. bytes ∷ []) ((bytes_decides x y).0 same) };

    fn hash<H: Hasher>(&self, state: &mut H) {
        state.write(self.as_bytes());
    }
}

/// Bytes that are looked up among names.
#[derive(Clone, Copy, PartialEq, Eq)]
pub(crate) struct Wanted<'a> {
    pub(crate) bytes: &'a [u8],
}

impl<'a> Hash for Wanted<'a> {
    ghost hash_input = { λ w. w.bytes.now ∷ [] };

    ghost respects_eq = { λ x y same.
        ap (λ bytes. bytes ∷ []) ((bytes_decides x.bytes.now y.bytes.now).0 same) };

    fn hash<H: Hasher>(&self, state: &mut H) {
        state.write(self.bytes);
    }
}

impl<'a> Equivalent<Name> for Wanted<'a> {
    ghost equivalent = { λ w name. bytes_eq w.bytes.now name };

    ghost respects_hash = { λ w name same.
        ap (λ bytes. bytes ∷ []) ((bytes_decides w.bytes.now name).0 same) };

    ghost respects_eq = { λ w x y. nat_list_eq_equiv.congr w.bytes.now x y };

    fn equivalent(&self, name: &Name) -> bool {
        is_same(self.bytes, name.as_bytes())
    }
}
