//! What holds of the grammar.

ghost use Rattle.std.specs.Prelude.{◌≡◌, ◌≤◌, List};
ghost use Rattle.cdc_token.specs.declared.token.Lexed.{Lexed};
ghost use Rattle.cdc_parse.specs.declared.kind.Kind.TheVariants.{Number, Truth};
ghost use Rattle.cdc_parse.specs.Depth.{deepest};
ghost use Rattle.cdc_tree.specs.Forms.{PStatement};
ghost use Rattle.cdc_parse.specs.Stands.{StandsFor};
ghost use Rattle.cdc_parse.specs.Kinds.{kind};
ghost use Rattle.cdc_parse.specs.Written.{Written, Fits, meant};
ghost use Rattle.cdc_parse.specs.Grammar.{Expr, Cond, expr, condition};

/// No line within the limit of depth has two statements.
pub fn one_statement()
    ensures { (tokens : List Lexed) (s t : PStatement) → deepest 0 tokens ≤ 64 → StandsFor s tokens → StandsFor t tokens → s ≡ t }
{}

/// The table of operators and the grammar, rule by rule, have the same expressions and conditions.
pub fn same_grammar()
    ensures expr_fits { (d : Expr) → Fits 6 (expr d) × (kind (meant (expr d)) ≡ Number) }
    ensures cond_fits { (d : Cond) → Fits 6 (condition d) × (kind (meant (condition d)) ≡ Truth) }
    ensures expr_derived { (t : Written) → Fits 6 t → kind (meant t) ≡ Number → (d : Expr) × (expr d ≡ t) }
    ensures cond_derived { (t : Written) → Fits 6 t → kind (meant t) ≡ Truth → (d : Cond) × (condition d ≡ t) }
{}
