//! What follows from the definition of the tokens of a text. The functions do nothing: their clauses are the laws.
ghost use Rattle.std.specs.Prelude.{◌≡◌, ◌⊎◌, ◌∷◌, ◌++◌, ℕ, List};
ghost use Rattle.st_lex.specs.declared.errors.Fault.{Fault};
ghost use Rattle.st_lex.specs.declared.kinds.Token.{Token};
ghost use Rattle.st_lex.specs.Tokens.{IsTokensOf, IsFaultOf, IsToken, IsGap};

/// Each text has a list of tokens or a first fault, one of the two, and one value of it. The number in `some` and `one_fault`
/// is the fault's offset.
pub fn one_reading()
    ensures some { (text : List ℕ) → ((tokens : List Token) × IsTokensOf text tokens)
        ⊎ ((offset : ℕ) × (fault : Fault) × IsFaultOf text offset fault) }
    ensures one_list { (text : List ℕ) (a b : List Token) → IsTokensOf text a → IsTokensOf text b → a ≡ b }
    ensures one_fault { (text : List ℕ) (m n : ℕ) (f g : Fault) → IsFaultOf text m f → IsFaultOf text n g
        → (m ≡ n) × (f ≡ g) }
    ensures not_both { (text : List ℕ) (tokens : List Token) (offset : ℕ) (fault : Fault)
        → IsTokensOf text tokens → IsFaultOf text offset fault → ⊥ }
{}

/// Each token of a text stands in it, and between neighbours stand only blanks and comments: they are in order and
/// do not overlap.
pub fn neighbours()
    ensures each { (text : List ℕ) (front back : List Token) (token : Token)
        → IsTokensOf text (front ++ token ∷ back) → IsToken text token }
    ensures between { (text : List ℕ) (front back : List Token) (token next : Token)
        → IsTokensOf text (front ++ token ∷ next ∷ back) → IsGap text token.end next.start }
{}
