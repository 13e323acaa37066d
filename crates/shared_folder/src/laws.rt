//! What holds of the names of unfinished files.
ghost use Rattle.std.specs.Prelude.{◌≡◌, ◌<◌, ℕ, List, All, length};
ghost use Rattle.folder_shelf.specs.Paths.{unfinished_path};
ghost use Rattle.shared_folder.specs.Tags.{tag_text};

/// Two processes with one path of an unfinished file, of whatever shares, have the same random bytes.
pub fn processes_are_told_apart()
    ensures { (top index there other ours theirs : List ℕ) (number another : ℕ)
        → length ours ≡ 16 → All (λ byte. byte < 256) ours
        → length theirs ≡ 16 → All (λ byte. byte < 256) theirs
        → unfinished_path top index number (tag_text ours)
        ≡ unfinished_path there other another (tag_text theirs) → ours ≡ theirs }
{}
