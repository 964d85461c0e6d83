// What a token stands for as the name of a verb, an option or a qualifier: whole, or cut short.
ghost use Rattle.std.specs.Prelude.{◌≡◌, true};
ghost use Rattle.qm_commands.specs.Names.{is_verb, is_object, is_name};
ghost use Rattle.qm_commands.specs.Spelled.{begins, is_spelled};

use qm_commands::{
    Row, Token, Verb, Word, begins, bytes_of, is_alone, is_object_alone, is_spelled, is_verb_alone,
    spelling, verb_spelling,
};

// Whether a token that begins this name spells it whole.
fn is_as_long(text: &[u8], name: &[u8], token: Token) -> bool
    ensures { begins text.now name.now token ≡ true → result ≡ is_spelled text.now name.now token }
{
    bytes_of(text, token).len() == name.len()
}

/// Whether a token is the verb: it spells it whole, or begins it and no other one.
pub fn is_verb(text: &[u8], token: Token, verb: Verb) -> bool
    ensures { result ≡ is_verb text.now token verb }
{
    let name = verb_spelling(verb);
    begins(text, name, token) && (is_as_long(text, name, token) || is_verb_alone(text, token, name))
}

/// Whether a token is the option that is the first parameter: it spells it whole, or begins it and no other one of the verb.
pub fn is_object(text: &[u8], verb: Verb, token: Token, word: Word) -> bool
    ensures { result ≡ is_object text.now verb token word }
{
    let name = spelling(word);
    begins(text, name, token)
        && (is_as_long(text, name, token) || is_object_alone(text, verb, token, name))
}

/// Whether a token is the option or the qualifier: it spells its name whole, or begins it and no other one of the command, or of
/// any command of the verb where none is named.
pub fn is_name(text: &[u8], verb: Verb, row: Option<Row>, token: Token, word: Word) -> bool
    ensures { result ≡ is_name text.now verb row token word }
{
    let name = spelling(word);
    begins(text, name, token)
        && (is_spelled(text, name, token) || is_alone(text, verb, row, token, name))
}
