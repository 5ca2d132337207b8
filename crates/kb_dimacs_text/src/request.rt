//! The words of the command line.
ghost use Rattle.std.specs.Prelude.{◌≡◌, ℕ, map, string_bytes, MatchOption, IsTrue, ◌↔◌, codes};
ghost use Rattle.kb_dimacs_text.specs.Requests.{AsksFor, SpellsBudget};
ghost use Rattle.kb_dimacs_text.specs.declared.request.Request.{Request};

/// What the words ask for: the most entries of the log, and whether the log is to be checked.
#[derive(Clone, Copy, PartialEq, Eq)]
pub struct Request {
    pub budget: u32,
    pub check: bool,
}

/// What the words ask for, if they are `BUDGET` or `BUDGET check`.
pub fn read_request(words: &[String]) -> Option<Request>
    ensures { MatchOption result
        ((request : Request) → AsksFor (map string_bytes words.now) request → ⊥)
        (AsksFor (map string_bytes words.now)) }
{
    match words {
        [word] => request_of(word.as_str(), false),
        [word, check] if is_check(check.as_str()) => request_of(word.as_str(), true),
        _ => None,
    }
}

/// What a budget asks for, with a check of the log or without.
fn request_of(word: &str, check: bool) -> Option<Request>
    ensures { MatchOption result
        ((budget : ℕ) → SpellsBudget budget word.now → ⊥)
        (λ request. SpellsBudget request.budget word.now × (request.check ≡ check)) }
{
    match read_budget(word) {
        Some(budget) => Some(Request { budget, check }),
        None => None,
    }
}

/// The number from 1 to 2^32 - 1 that a word spells.
fn read_budget(word: &str) -> Option<u32>
    ensures { MatchOption result ((budget : ℕ) → SpellsBudget budget word.now → ⊥) (λ budget. SpellsBudget budget word.now) }
{
    let Ok(budget) = word.parse::<u32>() else {
        return None;
    };
    if budget == 0 {
        return None;
    }
    Some(budget)
}

fn is_check(word: &str) -> bool
    ensures { IsTrue result ↔ (word.now ≡ codes "check") }
{
    word == "check"
}
