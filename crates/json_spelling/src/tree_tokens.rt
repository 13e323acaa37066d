//! A tree takes the tokens of pieces, whatever the order of keys.
ghost use Rattle.std.specs.Prelude.{◌∷◌, [], IfOk};
ghost use Rattle.json.specs.Token.{begin_object};
ghost use Rattle.serde_json.specs.Read.{max_depth};
ghost use Rattle.json_tree.specs.Builders.{HasTakenTokens};

use crate::spelling::{READ_LEVELS, Stop};
use crate::token_pieces::TakesTokens;
use json::Token;
use json_tree::{TreeBuilder, TreeFault};
use std::alloc::{AllocError, Global};

impl TakesTokens for TreeBuilder {
    ghost took = { HasTakenTokens max_depth };

    ghost wants_order = { ⊥ };

    fn push(&mut self, alloc: Global, token: Token<'_>) -> Result<(), Stop> {
        json_tree::laws::builders_read_the_grammar();
        match TreeBuilder::push(self, alloc, token) {
            Ok(()) => Ok(()),
            Err(TreeFault::NotJson) => Err(Stop::NotJson),
            Err(TreeFault::NoMemory) => Err(Stop::NoMemory),
        }
    }
}

/// What took the brace that opens an object.
///
/// # Errors
/// `AllocError` where memory is refused.
pub fn tree_in_object(alloc: Global) -> Result<TreeBuilder, AllocError>
    ensures { IfOk result (HasTakenTokens max_depth (begin_object ∷ [])) }
{
    json_tree::laws::builders_read_the_grammar();
    let mut tree = TreeBuilder::within(alloc, READ_LEVELS);
    match TreeBuilder::push(&mut tree, alloc, Token::BeginObject) {
        Ok(()) => Ok(tree),
        // A brace opens an object wherever a value may come: memory is refused.
        Err(_) => Err(AllocError),
    }
}
