//! What holds of children JSON.
ghost use Rattle.std.specs.Prelude.{◌≡◌, ◌↔◌, ℕ, List, Ok, Err, Some};
ghost use Rattle.dir_codec.specs.declared.entry.Entry.{Entry};
ghost use Rattle.dir_codec.specs.declared.fault.DirFault.{DirFault};
ghost use Rattle.children_reader.specs.Children.{making, made};
ghost use Rattle.children_reader.specs.MadeOf.{AreMadeOf, RefusesJson};

use caps::laws::reading_is_decided;

/// The children that JSON names are those that are made of it.
pub fn made_children_are_named()
    ensures { (entries : List Entry) (json : List ℕ)
        → ((made json ≡ Some entries) ↔ (making json ≡ Ok entries)) }
{}

/// Children JSON makes exactly the entries of its object's members, one of each, in the order of their names, and is
/// refused for the first member that is at fault.
pub fn children_are_the_members_entries()
    ensures made { (entries : List Entry) (json : List ℕ)
        → ((made json ≡ Some entries) ↔ AreMadeOf entries json) }
    ensures refused { (fault : DirFault) (json : List ℕ)
        → ((making json ≡ Err fault) ↔ RefusesJson fault json) }
{
    reading_is_decided();
}
