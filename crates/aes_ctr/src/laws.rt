//! What holds of bytes under a keystream, whatever the key and the bytes.

ghost use Rattle.std.specs.Prelude.{◌≡◌, All, [], ◌∷◌, ℕ, ◌+◌, ◌<◌, List, ◌++◌, length, take, drop, bit_xor, slice_index};
ghost use Rattle.aes_ctr.specs.Cipher.{encrypt};
ghost use Rattle.aes_ctr.specs.Keystream.{stream};
ghost use Rattle.aes_ctr.specs.Crypt.{crypt, crypt_from};

/// Byte by byte: each is added to the keystream's byte at its place, and none comes or goes.
pub fn keystream_by_place()
    ensures length { (key : List ℕ) (p : ℕ) (bytes : List ℕ)
        → length (crypt_from key p bytes) ≡ length bytes }
    ensures byte { (key : List ℕ) (p : ℕ) (bytes : List ℕ) (i : ℕ) → i < length bytes
        → slice_index (crypt_from key p bytes) i
        ≡ bit_xor (slice_index bytes i) (stream key (p + i)) }
{}

/// Twice at one offset gives the bytes back.
pub fn twice_is_unchanged()
    ensures { (key : List ℕ) (p : ℕ) (bytes : List ℕ)
        → crypt_from key p (crypt_from key p bytes) ≡ bytes }
{}

/// A beginning, and then the rest from where it ends, is the whole.
pub fn pieces_join()
    ensures { (key : List ℕ) (p : ℕ) (front back : List ℕ)
        → crypt_from key p (front ++ back)
        ≡ crypt_from key p front ++ crypt_from key (p + length front) back }
{}

/// A part of the result is the result of that part at its own place.
pub fn parts_agree()
    ensures front { (key : List ℕ) (p : ℕ) (bytes : List ℕ) (n : ℕ)
        → take n (crypt_from key p bytes) ≡ crypt_from key p (take n bytes) }
    ensures back { (key : List ℕ) (p : ℕ) (bytes : List ℕ) (n : ℕ)
        → drop n (crypt_from key p bytes) ≡ crypt_from key (p + n) (drop n bytes) }
    ensures whole { (key : List ℕ) (bytes : List ℕ) → crypt key bytes ≡ crypt_from key 0 bytes }
{}

/// Under a key of bytes, bytes stay bytes, as the keystream's are.
pub fn bytes_stay_bytes()
    ensures keystream { (key : List ℕ) (p : ℕ) → All (λ b. b < 256) key → stream key p < 256 }
    ensures result { (key : List ℕ) (p : ℕ) (bytes : List ℕ) → All (λ b. b < 256) key
        → All (λ b. b < 256) bytes
        → All (λ b. b < 256) (crypt_from key p bytes) }
{}

/// The definitions compute the examples of FIPS 197, appendices B and C.1.
pub fn examples_of_the_standard()
    ensures appendix_b { encrypt
        (0x2b ∷ 0x7e ∷ 0x15 ∷ 0x16 ∷ 0x28 ∷ 0xae ∷ 0xd2 ∷ 0xa6 ∷ 0xab ∷ 0xf7 ∷ 0x15 ∷ 0x88 ∷ 0x09
        ∷ 0xcf ∷ 0x4f ∷ 0x3c ∷ [])
        (0x32 ∷ 0x43 ∷ 0xf6 ∷ 0xa8 ∷ 0x88 ∷ 0x5a ∷ 0x30 ∷ 0x8d ∷ 0x31 ∷ 0x31 ∷ 0x98 ∷ 0xa2 ∷ 0xe0
        ∷ 0x37 ∷ 0x07 ∷ 0x34 ∷ [])
        ≡ 0x39 ∷ 0x25 ∷ 0x84 ∷ 0x1d ∷ 0x02 ∷ 0xdc ∷ 0x09 ∷ 0xfb ∷ 0xdc ∷ 0x11 ∷ 0x85 ∷ 0x97 ∷ 0x19
        ∷ 0x6a ∷ 0x0b ∷ 0x32 ∷ [] }
    ensures appendix_c { encrypt
        (0x00 ∷ 0x01 ∷ 0x02 ∷ 0x03 ∷ 0x04 ∷ 0x05 ∷ 0x06 ∷ 0x07 ∷ 0x08 ∷ 0x09 ∷ 0x0a ∷ 0x0b ∷ 0x0c
        ∷ 0x0d ∷ 0x0e ∷ 0x0f ∷ [])
        (0x00 ∷ 0x11 ∷ 0x22 ∷ 0x33 ∷ 0x44 ∷ 0x55 ∷ 0x66 ∷ 0x77 ∷ 0x88 ∷ 0x99 ∷ 0xaa ∷ 0xbb ∷ 0xcc
        ∷ 0xdd ∷ 0xee ∷ 0xff ∷ [])
        ≡ 0x69 ∷ 0xc4 ∷ 0xe0 ∷ 0xd8 ∷ 0x6a ∷ 0x7b ∷ 0x04 ∷ 0x30 ∷ 0xd8 ∷ 0xcd ∷ 0xb7 ∷ 0x80 ∷ 0x70
        ∷ 0xb4 ∷ 0xc5 ∷ 0x5a ∷ [] }
{}
