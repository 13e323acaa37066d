//! Laws of the definitions, each on a function that does nothing.
ghost use Rattle.std.specs.Prelude.{◌≡◌, ◌++◌, ◌^◌, ◌<◌, ◌≤◌, ◌+◌, ℕ, List, [], drop, length, decimal, All, IfOk, IfErr, IsOkAnd, Contains};
ghost use Rattle.std.specs.Str.Parse.{AllDigits, digits_value};
ghost use Rattle.tag_hash.specs.Decimal.{decimal_text};
ghost use Rattle.tag_hash.specs.Netstring.{netstring};
ghost use Rattle.tag_hash.specs.NetstringAt.{netstring_at, span_bytes};
ghost use Rattle.tag_hash.specs.Faults.{IsFirst};
ghost use Rattle.tag_hash.specs.Tagged.{tagged, tagged16, tagged_text, tagged_use, tagged16_use};
ghost use Rattle.tag_hash.specs.Pair.{pair, pair_text, pair_use};
ghost use Rattle.tag_hash.specs.Use.{Use, digest};
ghost use Rattle.tag_hash.specs.Collisions.{NoCollision, Includes};

/// Numbers are told apart by their decimal texts, which are as `{}` prints them.
pub fn decimals_are_read_back()
    ensures injective { (m n : ℕ) → decimal_text m ≡ decimal_text n → m ≡ n }
    ensures digits { (n : ℕ) → AllDigits 10 (decimal_text n) }
    ensures value { (n : ℕ) → digits_value 10 (decimal_text n) ≡ n }
    ensures printed { (n : ℕ) → n < 2 ^ 64 → decimal_text n ≡ decimal n }
{}

/// Byte strings are told apart by their netstrings, of which none begins another; and a netstring is
/// read back, whatever follows it, and nothing else is read as one.
pub fn netstrings_are_read_back()
    ensures injective { (a b : List ℕ) → netstring a ≡ netstring b → a ≡ b }
    ensures begins_none { (a b rest : List ℕ) → netstring a ++ rest ≡ netstring b →
        (a ≡ b) × (rest ≡ []) }
    ensures parts { (a b rest others : List ℕ) → netstring a ++ rest ≡ netstring b ++ others →
        (a ≡ b) × (rest ≡ others) }
    ensures reads_back { (bytes b rest : List ℕ) (at : ℕ) → length b < 2 ^ 64 →
        drop at bytes ≡ netstring b ++ rest →
        IsOkAnd (netstring_at bytes at) (λ read. (span_bytes read.0 bytes ≡ b)
        × (read.1 ≡ at + length (netstring b)) × (drop read.1 bytes ≡ rest)) }
    ensures reads_nothing_else { (bytes : List ℕ) (at : ℕ) →
        IfOk (netstring_at bytes at) (λ read. (read.0.start + read.0.len + 1 ≡ read.1)
        × (read.1 ≤ length bytes)
        × (drop at bytes ≡ netstring (span_bytes read.0 bytes) ++ drop read.1 bytes)) }
{}

/// Where no netstring is read at a place, the fault is the first one from left to right in the text from there on.
pub fn faults_are_the_first()
    ensures { (bytes : List ℕ) (at : ℕ) → IfErr (netstring_at bytes at) (IsFirst (drop at bytes)) }
{}

/// A hash of either kind is of one length, and the text under it fixes the tag and the values.
pub fn texts_fix_their_parts()
    ensures tagged { (tag other value another : List ℕ) →
        tagged_text tag value ≡ tagged_text other another →
        (tag ≡ other) × (value ≡ another) }
    ensures pair { (tag other a b c d : List ℕ) → pair_text tag a b ≡ pair_text other c d →
        (tag ≡ other) × (a ≡ c) × (b ≡ d) }
    ensures tagged_length { (tag value : List ℕ) → length (tagged tag value) ≡ 32 }
    ensures tagged16_length { (tag value : List ℕ) → length (tagged16 tag value) ≡ 16 }
    ensures pair_length { (tag a b : List ℕ) → length (pair tag a b) ≡ 32 }
{}

/// Hashes are bytes.
pub fn digests_are_bytes()
    ensures tagged { (tag value : List ℕ) → All (λ b. b < 256) (tagged tag value) }
    ensures tagged16 { (tag value : List ℕ) → All (λ b. b < 256) (tagged16 tag value) }
    ensures pair { (tag a b : List ℕ) → All (λ b. b < 256) (pair tag a b) }
{}

/// The digest of a use is the hash that it is the use of.
pub fn digests_are_the_hashes()
    ensures tagged { (tag value : List ℕ) → digest (tagged_use tag value) ≡ tagged tag value }
    ensures tagged16 { (tag value : List ℕ) → digest (tagged16_use tag value) ≡ tagged16 tag value }
    ensures pair { (tag a b : List ℕ) → digest (pair_use tag a b) ≡ pair tag a b }
{}

/// Where no two of some uses collide, none of a part of them do, and a hash fixes what it is of.
pub fn hashes_fix_their_parts()
    ensures of_part { (uses part : List Use) → NoCollision uses → Includes uses part →
        NoCollision part }
    ensures tagged { (uses : List Use) (tag other value another : List ℕ) → NoCollision uses →
        Contains uses (tagged_use tag value) → Contains uses (tagged_use other another) →
        tagged tag value ≡ tagged other another → (tag ≡ other) × (value ≡ another) }
    ensures tagged16 { (uses : List Use) (tag other value another : List ℕ) → NoCollision uses →
        Contains uses (tagged16_use tag value) → Contains uses (tagged16_use other another) →
        tagged16 tag value ≡ tagged16 other another → (tag ≡ other) × (value ≡ another) }
    ensures pair { (uses : List Use) (tag other a b c d : List ℕ) → NoCollision uses →
        Contains uses (pair_use tag a b) → Contains uses (pair_use other c d) →
        pair tag a b ≡ pair other c d → (tag ≡ other) × (a ≡ c) × (b ≡ d) }
{}
