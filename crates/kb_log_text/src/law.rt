//! What the lines of logs have in common.
ghost use Rattle.std.specs.Prelude.{◌≡◌, ℕ, List};
ghost use Rattle.kb_chain.specs.declared.log.Log.{Log};
ghost use Rattle.kb_grammar.specs.Lines.{AreLines};
ghost use Rattle.kb_grammar.specs.LineFormats.{SpellsByLines};
ghost use Rattle.kb_log_text.specs.Lines.{SpellsLog};

/// No line of a log has a line feed in it, and a text is that of one log at most. The function does nothing: it carries the law.
pub fn one_log_of_a_text()
    ensures lines { (log : Log) (lines : List (List ℕ)) → SpellsLog log lines → AreLines lines }
    ensures one { (one other : Log) (text : List ℕ) → SpellsByLines SpellsLog one text → SpellsByLines SpellsLog other text → one ≡ other }
{}
