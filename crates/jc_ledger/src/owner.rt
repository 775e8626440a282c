//! Which machine a sequence belongs to.

ghost use Rattle.std.specs.Prelude.{◌≡◌};
ghost use Rattle.jc_ledger.specs.Owners.{machine_named};

use sha2::{Digest, Sha256};

/// A machine, by the SHA-256 digest of its name.
///
/// Source: FIPS 180-4, section 6.2.
#[derive(Clone, Copy, PartialEq, Eq)]
pub struct MachineDigest(pub [u8; 32]);

impl MachineDigest {
    /// The machine of this name. Takes no memory.
    #[tactic(auto, unfolding(crate::specs::Owners::machine_named))]
    pub fn of(name: &[u8]) -> MachineDigest
        ensures { result ≡ machine_named name.now }
    {
        let mut hasher = Sha256::new();
        hasher.update(name);
        MachineDigest(hasher.finalize())
    }
}
