//! What holds of the answers of every work.

ghost use Rattle.std.specs.Prelude.{◌≡◌, ◌↔◌, List, map};
ghost use Rattle.kb_workers.specs.Mapped.{AreMapped};

/// Of work that has one answer for each piece there is one list of answers, whoever does it: std's `map`.
pub fn mapped_is_map<T, R>()
    ensures { (work : T → R) (pieces : List T) (answers : List R) → AreMapped (λ piece answer. answer ≡ work piece) pieces answers ↔ (answers ≡ map work pieces) }
{}
