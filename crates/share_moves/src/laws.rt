//! Laws, each on a function that does nothing.
ghost use Rattle.std.specs.Prelude.{◌≡◌, ◌<◌, ℕ, List, None};
ghost use Rattle.share_store.specs.Shares.{Shares, ShareKey};
ghost use Rattle.grid.specs.Standing.{Standing, standing};
ghost use Rattle.share_moves.specs.Moves.{moved_shares, with_moved_shares, first_share_of, IsPartlyMoved, AreMovedShares};

/// Shares are laid by one run or by several, each of which was cut off but the last.
pub fn shares_are_laid_again()
    // where nothing stood, there stand the shares, each in its place, and nothing else
    ensures fresh { (count : ℕ) (maps : List Shares) →
        with_moved_shares count maps (λ _ _. None) ≡ moved_shares count maps }
    // and so it is where what stood were some of them, as a run leaves that was cut off
    ensures some { (count : ℕ) (maps : List Shares) (before : Standing) →
        AreMovedShares count maps before →
        with_moved_shares count maps before ≡ moved_shares count maps }
    // a run that was cut off, and another one after it, leave what one leaves
    ensures cut_off { (count : ℕ) (maps : List Shares) (before now : Standing) →
        IsPartlyMoved count maps before now →
        with_moved_shares count maps now ≡ with_moved_shares count maps before }
    // what a run that was cut off leaves where nothing stood are some of the shares
    ensures partly { (count : ℕ) (maps : List Shares) (now : Standing) →
        IsPartlyMoved count maps (λ _ _. None) now → AreMovedShares count maps now }
{}

/// Where a key stands at one server at most, the share that is moved is the one that stands there.
pub fn one_share_is_moved()
    ensures one { (maps : List Shares) (server : ℕ) (key : ShareKey) →
        ((other : ℕ) → (other ≡ server → ⊥) → standing maps other key ≡ None) →
        first_share_of maps key ≡ standing maps server key }
{}
