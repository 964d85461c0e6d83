// Laws of the grammar.
ghost use Rattle.std.specs.Prelude.{◌≡◌, ◌↔◌, ℕ, List, Option, Some};
ghost use Rattle.qm_commands.specs.declared.tokens.token.Token.{Token};
ghost use Rattle.qm_commands.specs.declared.table.Row.{Row};
ghost use Rattle.qm_commands.specs.declared.table.Verb.{Verb};
ghost use Rattle.qm_commands.specs.Naming.{name_for, names_for, StandsFor};

/// What is accepted behind a `/` as a name is that name whole, or what no other name of the command begins with, or none of any
/// command of the verb where no command is named. So each name that is spelled whole is read as itself.
pub fn names_are_whole_or_begun_alone()
    ensures { (text : List ℕ) (verb : Verb) (row : Option Row) (token : Token) (name : List ℕ)
        → (name_for text verb row token ≡ Some name)
        ↔ StandsFor text (names_for verb row) token name }
{}
