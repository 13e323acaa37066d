//! What holds of the definitions, each on a function that does nothing.
ghost use Rattle.std.specs.Prelude.{ℕ, List, All};
ghost use Rattle.caps.specs.declared.cap.Cap.{Cap};
ghost use Rattle.client_tree.specs.Runs.{File};
ghost use Rattle.client_tree.specs.Trees.{IsBoundFile, IsTreeOf};

/// Each file of a cap's tree has bytes that are bound to the cap which the names of its path lead to.
pub fn trees_are_bound()
    ensures { (cap : Cap) (path : List (List ℕ)) (files : List File) → IsTreeOf cap path files →
        All (IsBoundFile cap path) files }
{
    client_core::laws::children_are_found();
}
