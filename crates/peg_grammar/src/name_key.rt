//! The hash key for the names of a grammar.
ghost use Rattle.std.specs.Prelude.{◌≡◌};
ghost use Rattle.peg_semantics.specs.Rules.{names as names_of};
ghost use Rattle.peg_grammar.specs.Names.{ended_names, keyed_hasher};
ghost use Rattle.peg_grammar.specs.Written.{rules_of};
ghost use Rattle.sha2.specs.Sha256.{sha256};

use crate::Definition;
use sha2::{Digest, Sha256};
use std::hash::{BuildHasher, DefaultHasher, Hasher};

/// The digest of all names of a grammar, which is hashed before each name. Changing one name changes the key and so
/// every hash. So the author of a grammar cannot choose names that collide.
#[derive(Clone, Copy, Debug)]
pub(crate) struct NameKey {
    digest: [u8; 32],
}

impl NameKey {
    /// Computes the key for the names of the definitions. Linear in their total length.
    pub(crate) fn of(definitions: &[Definition]) -> NameKey
        ensures { result.digest ≡ sha256 (ended_names (names_of (rules_of definitions.now))) }
    {
        let mut names = Sha256::new();
        for definition in definitions {
            names.update(definition.name.as_bytes());
            // No name contains a zero byte, so it separates the names.
            names.update(&[0]);
        }
        NameKey {
            digest: names.finalize(),
        }
    }
}

impl BuildHasher for NameKey {
    type Hasher = DefaultHasher;

    ghost build_hasher = { λ key. keyed_hasher key.digest };

    fn build_hasher(&self) -> DefaultHasher {
        let mut hasher = DefaultHasher::new();
        hasher.write(&self.digest);
        hasher
    }
}
