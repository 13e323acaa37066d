//! Laws of the definitions, each on a function that does nothing.
ghost use Rattle.std.specs.Prelude.{◌≡◌, ℕ, List};
ghost use Rattle.share_repair.specs.Files.{FileLabel, Numbered, AreGivenOf};

use share_codec::laws::{
    any_shares_determine, good_shares_are_read, made_shares_are_read_back,
    made_shares_meet_their_fields,
};

/// k shares of a file, of different numbers, are shares of one crypttext alone: so they determine all its shares.
pub fn given_shares_determine()
    ensures { (label : FileLabel) (one other : List ℕ) (given : List Numbered) →
        AreGivenOf label one given → AreGivenOf label other given → one ≡ other }
{
    made_shares_meet_their_fields();
    good_shares_are_read();
    made_shares_are_read_back();
    any_shares_determine();
}
