// What follows from the grammar.
ghost use Rattle.std.specs.Prelude.{◌≡◌, ℕ, List, length, Ok};
ghost use Rattle.qm_commands.specs.Tokens.{tokens_of, AreInOrder};
ghost use Rattle.qm_commands.specs.declared.tokens.token.Token.{Token as AnyToken};

/// The tokens of a text lie within it, each behind the one before, and none is empty.
pub fn tokens_are_in_order()
    ensures { (text : List ℕ) (tokens : List AnyToken) → tokens_of text ≡ Ok tokens
        → AreInOrder 0 (length text) tokens }
{}
