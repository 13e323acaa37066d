//! What holds of the replies.
ghost use Rattle.std.specs.Prelude.{◌≡◌, ◌<◌, ◌^◌, ℕ, List, [], ◌∷◌, codes, Some, All};
ghost use Rattle.std.specs.List.{flat_map};
ghost use Rattle.serde_json.specs.Read.{read};
ghost use Rattle.serde_json.specs.Written.{compact_text};
ghost use Rattle.file_shares.specs.Check.{HealthValue};
ghost use Rattle.health_json.specs.Checks.{check_text, sharemap, servers_places, sharemap_text, mapped_check_text, literal_check_text};
ghost use Rattle.health_json.specs.Values.{check_value, mapped_check_value, literal_check_value, in_key_order, IsCounted};

use json_spelling::laws::whole_values_are_read_back;

/// A sharemap has the places that it was made of, and no others, in their order. Where places of one number follow one
/// another their servers are in one list.
pub fn sharemaps_have_their_places()
    ensures places { (places : List (ℕ × ℕ))
        → flat_map servers_places (sharemap places) ≡ places }
    ensures some { sharemap_text ((0, 0) ∷ (2, 0) ∷ (1, 3) ∷ (2, 12) ∷ [])
        ≡ codes "{\"0\":[0,2],\"3\":[1],\"12\":[2]}" }
    ensures none { sharemap_text [] ≡ codes "{}" }
{}

/// The JSON of a check is `serde_json`'s compact text of a value with the counts and the shares that aren't good, and its
/// reader reads it as that value where these are numbers of 64 bits. So is the JSON that says where the shares are too,
/// but that its reader has the keys of the sharemap in the order of their bytes.
pub fn checks_are_read_back()
    ensures written { (index : List ℕ) (health : HealthValue)
        → check_text index health ≡ compact_text (check_value index health) }
    ensures read { (index : List ℕ) (health : HealthValue) → IsCounted health
        → read (check_text index health) ≡ Some (check_value index health) }
    ensures mapped_written { (index : List ℕ) (health : HealthValue)
        → mapped_check_text index health ≡ compact_text (mapped_check_value index health) }
    ensures mapped_read { (index : List ℕ) (health : HealthValue)
        → IsCounted health → All (λ place. place.0 < 2 ^ 64) health.places
        → read (mapped_check_text index health) ≡ Some (in_key_order (mapped_check_value index health)) }
    ensures literal_written { literal_check_text ≡ compact_text literal_check_value }
    ensures literal_read { read literal_check_text ≡ Some literal_check_value }
{
    whole_values_are_read_back();
}
