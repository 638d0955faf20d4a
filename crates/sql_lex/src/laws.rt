//! What holds of the tokens of any text, by the grammar of `specs/Grammar`. Of the lexer's own definitions the laws share
//! `first_token` and the values of which they speak, `spelling` (which bytes a token has) and `position_after`.

ghost use Rattle.std.specs.Prelude.{◌≡◌, ◌≤◌, ◌⊎◌, ℕ, List, length, Ok, Err};
ghost use Rattle.sql_lex.specs.declared.token.Token.{Token};
ghost use Rattle.sql_lex.specs.declared.token.LexFault.{LexFault};
ghost use Rattle.sql_lex.specs.declared.token.TokenKind.TheVariants as kinds;
ghost use Rattle.sql_lex.specs.Lex.{first_token, IsTokenOf};
ghost use Rattle.sql_lex.specs.Value.{spelling, folded, unquoted_name, string_value};
ghost use Rattle.sql_lex.specs.Grammar.{Spells};
ghost use Rattle.sql_lex.specs.Laws.{StandsIn, IsTokenFrom, IsFaultFrom, AreTokens, AreSeparated, laid_out};

/// What is read from a place on stands behind separators alone, at which none begins, is spelled as its kind is, is the
/// longest that stands there, and is followed by what may follow it.
pub fn token_is_by_the_grammar()
    ensures stands { (text : List ℕ) (at : ℕ) (t : Token) → at ≤ length text
        → first_token text at ≡ Ok t → StandsIn text at t }
    ensures grammar { (text : List ℕ) (at : ℕ) (t : Token) → at ≤ length text
        → first_token text at ≡ Ok t → IsTokenFrom text at t }
{}

/// Where no token is read, the fault says what stands there in place of one: what has no end in a text that is UTF-8, a
/// byte with which no token begins or goes on, or one that belongs to no character. This last is the fault only where
/// what is read of the text before it runs up to it: separators alone, or a string, a name or a comment that is open.
pub fn fault_is_by_the_grammar()
    ensures { (text : List ℕ) (at : ℕ) (fault : LexFault) → at ≤ length text
        → first_token text at ≡ Err fault → IsFaultFrom text at fault }
{}

/// Words, names and strings stand for what the grammar says that their spelling stands for.
pub fn values_are_by_the_grammar()
    ensures word { (text : List ℕ) (t : Token) → IsTokenOf text t → t.kind ≡ kinds.Word
        → Spells kinds.Word (spelling text t) (folded text t) }
    ensures name { (text : List ℕ) (t : Token) → IsTokenOf text t → t.kind ≡ kinds.Quoted
        → Spells kinds.Quoted (spelling text t) (unquoted_name text t) }
    ensures string { (text : List ℕ) (t : Token) → IsTokenOf text t
        → (t.kind ≡ kinds.Str) ⊎ (t.kind ≡ kinds.EscStr)
        → Spells t.kind (spelling text t) (string_value text t) }
{}

/// Nothing of a text is skipped but what separates tokens, and a text has no two lists of tokens.
pub fn tokens_are_the_text()
    ensures whole { (text : List ℕ) (tokens : List Token) → AreTokens text 0 tokens
        → text ≡ laid_out text 0 tokens }
    ensures separated { (text : List ℕ) (tokens : List Token) → AreTokens text 0 tokens
        → AreSeparated text 0 tokens }
    ensures one { (text : List ℕ) (tokens others : List Token) → AreTokens text 0 tokens
        → AreTokens text 0 others → tokens ≡ others }
{}
