//! Laws of scripts and plans. Each is the contract of a function that does nothing.
ghost use Rattle.std.specs.Prelude.{◌≡◌, ℕ, ◌<◌, List, [], length, get_or};
ghost use Rattle.ids_base.specs.declared.plan.Plan.{Plan};
ghost use Rattle.sql_reader.specs.Grammar.{IsStatementText};
ghost use Rattle.sql_reader.specs.Lines.{InGrammar, texts_of, sessions_in, statements_in, text_in};
ghost use Rattle.sql_reader.specs.Plans.{IsPlanOf, IsScriptOf, plans_in};

/// Each text of a statement has a plan.
pub fn every_statement_has_a_plan()
    ensures { (text : List ℕ) → IsStatementText text → (plan : Plan) × IsPlanOf text plan }
{}

/// No text has two plans.
pub fn a_statement_has_one_plan()
    ensures { (text : List ℕ) (plan other : Plan) → IsPlanOf text plan → IsPlanOf text other → plan ≡ other }
{}

/// The bytes of a script have the plans of its statements.
pub fn every_script_has_plans()
    ensures { (bytes : List ℕ) → InGrammar bytes → (script : List (List (List Plan))) × IsScriptOf bytes script }
{}

/// No bytes are read as two scripts.
pub fn a_script_has_one_reading()
    ensures { (bytes : List ℕ) (script other : List (List (List Plan))) → IsScriptOf bytes script → IsScriptOf bytes other → script ≡ other }
{}

/// The script of some bytes has as many phases, sessions and statements as their texts, and at each place the plan of the
/// text there.
pub fn a_script_has_its_plans_in_place()
    ensures phases { (bytes : List ℕ) (script : List (List (List Plan))) → IsScriptOf bytes script → length script ≡ length (texts_of bytes) }
    ensures sessions { (bytes : List ℕ) (script : List (List (List Plan))) (phase : ℕ) → IsScriptOf bytes script → length (get_or script phase []) ≡ length (sessions_in (texts_of bytes) phase) }
    ensures statements { (bytes : List ℕ) (script : List (List (List Plan))) (phase session : ℕ) → IsScriptOf bytes script → length (plans_in script phase session) ≡ length (statements_in (texts_of bytes) phase session) }
    ensures plans { (bytes : List ℕ) (script : List (List (List Plan))) (phase session statement : ℕ) (default : Plan) → IsScriptOf bytes script → statement < length (statements_in (texts_of bytes) phase session) → IsPlanOf (text_in (texts_of bytes) phase session statement) (get_or (plans_in script phase session) statement default) }
{}

#[cfg(test)]
mod tests {
    #[test]
    fn hold() {
        super::every_statement_has_a_plan();
        super::a_statement_has_one_plan();
        super::every_script_has_plans();
        super::a_script_has_one_reading();
        super::a_script_has_its_plans_in_place();
    }
}
