ghost use Rattle.std.specs.Prelude.{◌≡◌, ◌<◌, ◌^◌, ◌∷◌, ◌++◌, ℕ, List, [], false, Some};
ghost use Rattle.std.specs.Fmt.{decimal};
ghost use Rattle.text_reader.specs.Reader as reader;

/// Each number below 2^32 is read from its decimal digits, where no digit follows, and what is read
/// has these digits.
pub fn decimals_read_back()
    ensures read { (k c : ℕ) → (rest : List ℕ) → k < 2 ^ 32 → reader.is_digit c ≡ false
        → reader.decimal (decimal k ++ (c ∷ rest)) ≡ Some (k, c ∷ rest) }
    ensures at_end { (k : ℕ) → k < 2 ^ 32 → reader.decimal (decimal k) ≡ Some (k, []) }
    ensures written { (bytes rest : List ℕ) → (k : ℕ) → reader.decimal bytes ≡ Some (k, rest)
        → (k < 2 ^ 32) × (decimal k ++ rest ≡ bytes) }
{}
