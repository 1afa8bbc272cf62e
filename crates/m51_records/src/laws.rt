//! What holds of all spellings.
ghost use Rattle.std.specs.Prelude.{◌≡◌, ◌<◌, ◌+◌, ◌*◌, ◌++◌, ◌∷◌, [], ℕ, List};
ghost use Rattle.byteorder.specs.Endian.{little_bytes};
ghost use Rattle.m51_module.specs.declared.parts.ModuleParts.{ModuleParts};
ghost use Rattle.m51_module.specs.Validity.{IsValid};
ghost use Rattle.m51_records.specs.Spelling.{bytes_of};

/// No spelling of a module is a prefix of that of another, so what follows a spelling does not change what is read.
///
/// Source: own choice ("Object records").
#[tactic(auto, using(crate::proofs::ModuleLaws::one_front))]
pub fn one_spelling()
    ensures { (m n : ModuleParts) (x y : List ℕ) → IsValid m → IsValid n
        → bytes_of m ++ x ≡ bytes_of n ++ y → (m ≡ n) × (x ≡ y) }
{}

/// Two bytes are the spelling of the number as which they are read, the low one first.
///
/// Source: own choice ("Object records").
pub fn one_number()
    ensures { (low high : ℕ) → low < 256 → high < 256 → little_bytes 2 (low + 256 * high) ≡ low ∷ high ∷ [] }
{}
