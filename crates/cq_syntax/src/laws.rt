//! What holds of the grammar itself.
ghost use Rattle.std.specs.Prelude.{◌≡◌, true, List};
ghost use Rattle.cq_lex.specs.declared.token.Token.{Token};
ghost use Rattle.cq_rules.specs.Rule.{decides};
ghost use Rattle.cq_syntax.specs.Grammar.{program};
ghost use Rattle.cq_syntax.specs.Program.{IsProgram, FitsLimits};
ghost use Rattle.cq_syntax.specs.declared.program.Program.{Program};

/// The next token alone decides each choice of the grammar.
pub fn next_token_decides()
    ensures { decides program ≡ true }
{}

/// Tokens are at most one program that keeps the limits.
pub fn one_program()
    ensures { (tokens : List Token) (tree other : Program) → IsProgram tokens tree → FitsLimits tree
        → IsProgram tokens other → FitsLimits other → tree ≡ other }
{}
