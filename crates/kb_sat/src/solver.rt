//! The call `solve`: which searches it makes, and what their ends say of the formula. Its answers are under proof; how many
//! searches there are and what they let go is free.
ghost use Rattle.std.specs.Prelude.{◌≡◌, ℕ, ◌+◌, ◌<◌, ◌≤◌, true, false, [], IsSome, length, IfOk, IfSome, OnOk};
ghost use Rattle.kb_chain.specs.Clause.{Satisfies, assignment_of};
ghost use Rattle.kb_chain.specs.Chains.{IsRefutation};
ghost use Rattle.kb_chain.specs.Cnf.{Cnf};
ghost use Rattle.kb_chain.specs.Propagation.{IsFresh, UnitRefutes};
ghost use Rattle.kb_propagate.specs.Base.{Stands, IsReady, IsComplete, IsDoomed};
ghost use Rattle.kb_sat.specs.Solver.{Equipped, GoesOn};
ghost use Rattle.kb_sat.specs.Answer.{Solves, BegunIs, EndedIs, at_end, KeepsAll, IfSat, IfUnsat, IfUndecided, IsCutOf, IsOpenOnly, ProgressIs};

use crate::analysis::refute;
use crate::counts::Counts;
use crate::forgetting::forget;
use crate::parameters::{ELIMINATION, ELIMINATION_CLAUSES, SMALL_BUDGET};
use crate::search::Search;
use kb_chain::{Clause, Formula, Log, Row};
use kb_eliminate::{Eliminated, eliminate, restored};
use kb_heuristics::{ActivityOrder, Crowding, Pace};
use kb_log_cut::cut;
use kb_propagate::{NoMemory, model};
use kb_rows::Held;
use std::alloc::Global;

/// What became of a formula.
#[derive(Drop)]
pub enum Solved {
    /// A model: the value of variable 1 first.
    Sat(Row<bool>),
    /// A refutation.
    Unsat(Log),
    /// As many learned clauses as the budget allows, with which the formula is still open.
    Undecided(Log),
}

/// Searches for a model of the formula with at most `budget` derived clauses, which are the entries of the log. Where a clause
/// is false at level 0 and the log has room, the last entry is the empty clause, and the others are those that it needs.
///
/// Where the budget is more than a few thousand, a first attempt eliminates variables and lets clauses go, so that its log
/// isn't fresh. Only where it decides nothing comes a second one that keeps all clauses, which takes longer.
///
/// A formula that is decided within a budget is decided within every greater one, and alike: that the answer is no other
/// follows from the clauses, and that there is one holds by construction. Both attempts begin and go on without the budget,
/// which only ends them, and a second one follows wherever the first decides nothing.
pub fn solve(alloc: Global, formula: &Formula, budget: u32) -> Result<Solved, NoMemory>
    requires { 0 < budget }
    ensures sat { IfOk result (IfSat (λ bits. (length bits ≡ formula.now.vars) × Satisfies (assignment_of bits) formula.now.clauses)) }
    ensures unsat { IfOk result (IfUnsat (λ log. IsRefutation formula.now.clauses log.entries × (length log.entries ≤ budget))) }
    ensures undecided { IfOk result (IfUndecided (λ log. IsFresh formula.now.clauses log.entries × (length log.entries ≡ budget)
        × (UnitRefutes formula.now.clauses → ⊥))) }
{
    let (solved, _counts) = solve_counted(alloc, formula, budget)?;
    Ok(solved)
}

/// As `solve`, but with the variables of `first` decided before others, in its order, until conflicts tell more. What is no
/// variable of the formula is passed over.
pub fn solve_from(
    alloc: Global,
    formula: &Formula,
    budget: u32,
    first: &[u32],
) -> Result<Solved, NoMemory>
    requires { 0 < budget }
    ensures sat { IfOk result (IfSat (λ bits. (length bits ≡ formula.now.vars) × Satisfies (assignment_of bits) formula.now.clauses)) }
    ensures unsat { IfOk result (IfUnsat (λ log. IsRefutation formula.now.clauses log.entries × (length log.entries ≤ budget))) }
    ensures undecided { IfOk result (IfUndecided (λ log. IsFresh formula.now.clauses log.entries × (length log.entries ≡ budget)
        × (UnitRefutes formula.now.clauses → ⊥))) }
{
    let (solved, _counts) = solve_in_order(alloc, formula, budget, first)?;
    Ok(solved)
}

/// What `solve` answers, with what its searches did.
pub fn solve_counted(
    alloc: Global,
    formula: &Formula,
    budget: u32,
) -> Result<(Solved, Counts), NoMemory>
    requires { 0 < budget }
    ensures sat { IfOk result (λ found. IfSat (λ bits. (length bits ≡ formula.now.vars) × Satisfies (assignment_of bits) formula.now.clauses) found.0) }
    ensures unsat { IfOk result (λ found. IfUnsat (λ log. IsRefutation formula.now.clauses log.entries × (length log.entries ≤ budget)) found.0) }
    ensures undecided { IfOk result (λ found. IfUndecided (λ log. IsFresh formula.now.clauses log.entries × (length log.entries ≡ budget)
        × (UnitRefutes formula.now.clauses → ⊥)) found.0) }
{
    let first = likely_inputs(alloc, formula)?;
    solve_in_order(alloc, formula, budget, first.as_slice())
}

// What is answered where the variables of `first` are decided before others, with what the searches did.
fn solve_in_order(
    alloc: Global,
    formula: &Formula,
    budget: u32,
    first: &[u32],
) -> Result<(Solved, Counts), NoMemory>
    requires { 0 < budget }
    ensures sat { IfOk result (λ found. IfSat (λ bits. (length bits ≡ formula.now.vars) × Satisfies (assignment_of bits) formula.now.clauses) found.0) }
    ensures unsat { IfOk result (λ found. IfUnsat (λ log. IsRefutation formula.now.clauses log.entries × (length log.entries ≤ budget)) found.0) }
    ensures undecided { IfOk result (λ found. IfUndecided (λ log. IsFresh formula.now.clauses log.entries × (length log.entries ≡ budget)
        × (UnitRefutes formula.now.clauses → ⊥)) found.0) }
{
    let mut before = Counts::default();
    if budget > SMALL_BUDGET {
        let (found, counts) = attempt(alloc, formula, budget, first, true)?;
        if let Some(solved) = found {
            return Ok((solved, counts));
        }
        before = counts;
    }
    let (found, counts) = attempt(alloc, formula, budget, first, false)?;
    match found {
        Some(solved) => Ok((solved, before.plus(counts))),
        None => unreachable!(),
    }
}

// The variables that are the greatest of no clause of two literals or more, by falling number: of a formula of gates, each of
// which has a greater number than what it is made of, the inputs.
fn likely_inputs(alloc: Global, formula: &Formula) -> Result<Vec<u32>, NoMemory> {
    let mut is_made = vec![in alloc; false; formula.vars() as usize + 1]?;
    note_greatest(formula.clauses(), is_made.as_mut_slice());
    let mut inputs = Vec::new(alloc);
    for below in 0..formula.vars() {
        let variable = formula.vars() - below;
        if is_made.get(variable as usize) == Some(&false) {
            inputs.push(variable)?;
        }
    }
    Ok(inputs)
}

// Notes of each clause of two literals or more the greatest variable.
fn note_greatest(clauses: &[Clause], is_made: &mut [bool]) {
    for clause in clauses {
        if let [_, .., last] = clause.literals() {
            note(is_made, last.variable());
        }
    }
}

fn note(is_made: &mut [bool], variable: u32) {
    if let Some(place) = is_made.get_mut(variable as usize) {
        *place = true;
    }
}

/// One search with what it did; it may let clauses go if that is wanted. None comes only then: where the budget is spent, or
/// where what was found is no model of the formula.
pub(crate) fn attempt(
    alloc: Global,
    formula: &Formula,
    budget: u32,
    first: &[u32],
    lets_go: bool,
) -> Result<(Option<Solved>, Counts), NoMemory>
    requires { 0 < budget }
    ensures answers { IfOk result (λ found. IfSome found.0 (Solves formula.now budget)) }
    ensures some { IfOk result (λ found. lets_go ≡ false → IsSome found.0) }
{
    match begin(alloc, formula, first, lets_go)? {
        Begun::Doomed(search, number) => {
            let counts = search.get().counts;
            let log = refutation(alloc, search.get(), number)?;
            Ok((Some(Solved::Unsat(log)), counts))
        }
        Begun::Ready(search, eliminated) => {
            let ended = search_on(alloc, search, budget, lets_go)?;
            let counts = counts_of(&ended);
            Ok((conclude(alloc, ended, &eliminated)?, counts))
        }
    }
}

/// A search at its start.
pub(crate) enum Begun<'a> {
    /// The clause of this number is false.
    Doomed(Held<Search<'a>>, u32),
    Ready(Held<Search<'a>>, Eliminated),
}

/// Begins a search; where clauses may be let go, with an elimination of variables, unless the formula is very long. What it
/// does depends on the formula and not on the budget, so that an answer stays one with a greater budget.
pub(crate) fn begin<'a>(
    alloc: Global,
    formula: &'a Formula,
    first: &[u32],
    lets_go: bool,
) -> Result<Begun<'a>, NoMemory>
    ensures { IfOk result (BegunIs formula.now lets_go) }
{
    let (search, conflict) = Search::new(alloc, formula, first)?;
    if let Some(number) = conflict {
        return Ok(Begun::Doomed(search, number));
    }
    if !lets_go {
        return Ok(Begun::Ready(search, Eliminated::new(alloc)));
    }
    if search.get().base.clauses.len() > ELIMINATION_CLAUSES {
        return Ok(Begun::Ready(search, Eliminated::new(alloc)));
    }
    prepare(alloc, search)
}

/// Makes true what the clauses force, and eliminates variables.
fn prepare<'a>(alloc: Global, search: Held<Search<'a>>) -> Result<Begun<'a>, NoMemory>
    requires stands { Stands search.base }
    requires equipped { Equipped search }
    requires ready { IsReady search.base }
    requires level { search.base.trail.starts ≡ [] }
    requires entries { search.base.entries ≡ [] }
    ensures { IfOk result (BegunIs search.entry.base.formula.now true) }
{
    let mut search = search;
    if let Some(number) = search.get_mut().settle()? {
        return Ok(Begun::Doomed(search, number));
    }
    let eliminated = eliminate(alloc, &mut search.get_mut().base, ELIMINATION)?;
    prefer(&mut search.get_mut().order, eliminated.left.as_slice());
    search.get_mut().base.whole = false;
    Ok(Begun::Ready(search, eliminated))
}

/// Lets variables be decided before all others.
fn prefer(order: &mut ActivityOrder, variables: &[u32])
    ensures { order.new ≡ order.old }
{
    for variable in variables {
        if *variable <= order.vars() {
            order.bump(*variable);
        }
    }
}

/// A search at its end.
pub(crate) enum Ended<'a> {
    /// All variables have a value.
    Complete(Held<Search<'a>>),
    /// The clause of this number is false at level 0.
    Doomed(Held<Search<'a>>, u32),
    /// The log has as many entries as the budget allows, and the clause of this number is false.
    Spent(Held<Search<'a>>, u32),
}

fn counts_of(ended: &Ended<'_>) -> Counts {
    match ended {
        Ended::Complete(search) => search.get().counts,
        Ended::Doomed(search, _) => search.get().counts,
        Ended::Spent(search, _) => search.get().counts,
    }
}

/// How a search ends, apart from its state.
pub(crate) enum End {
    /// All variables have a value.
    Complete,
    /// The clause of this number is false at level 0.
    Doomed(u32),
    /// The log has as many entries as the budget allows, and the clause of this number is false.
    Spent(u32),
}

/// Searches until all variables have a value, a clause is false at level 0, or the budget is spent.
fn search_on<'a>(
    alloc: Global,
    search: Held<Search<'a>>,
    budget: u32,
    lets_go: bool,
) -> Result<Ended<'a>, NoMemory>
    requires budget { 0 < budget }
    requires stands { Stands search.base }
    requires equipped { Equipped search }
    requires ready { IsReady search.base }
    requires entries { search.base.whole ≡ true → search.base.entries ≡ [] }
    ensures ended { IfOk result (EndedIs search.entry.base.formula.now budget) }
    ensures whole { IfOk result (λ ended. lets_go ≡ false → search.entry.base.whole ≡ true → KeepsAll ended) }
{
    let mut search = search;
    match search_to_end(alloc, search.get_mut(), budget, lets_go)? {
        End::Complete => Ok(Ended::Complete(search)),
        End::Doomed(number) => Ok(Ended::Doomed(search, number)),
        End::Spent(number) => Ok(Ended::Spent(search, number)),
    }
}

/// Searches on in place, and says how the search ends.
fn search_to_end(
    alloc: Global,
    search: &mut Search<'_>,
    budget: u32,
    lets_go: bool,
) -> Result<End, NoMemory>
    requires budget { 0 < budget }
    requires stands { Stands search.old.base }
    requires equipped { Equipped search.old }
    requires ready { IsReady search.old.base }
    requires entries { search.old.base.whole ≡ true → search.old.base.entries ≡ [] }
    ensures ended { IfOk result (λ end. EndedIs search.old.base.formula.now budget (at_end search.new end)) }
    ensures whole { IfOk result (λ end. lets_go ≡ false → search.old.base.whole ≡ true → KeepsAll (at_end search.new end)) }
{
    let mut pace = Pace::new();
    let mut crowding = Crowding::new();
    while search.base.entries.len() < budget as usize {
        match advance(alloc, search, &mut pace)? {
            Progress::Complete => return Ok(End::Complete),
            Progress::Doomed(number) => return Ok(End::Doomed(number)),
            Progress::Learned => make_room(alloc, search, &mut crowding, lets_go)?,
        }
    }
    match search.run()? {
        None => Ok(End::Complete),
        Some(number) => Ok(End::Spent(number)),
    }
}

/// Lets clauses go, if that is wanted and it is time.
fn make_room(
    alloc: Global,
    search: &mut Search<'_>,
    crowding: &mut Crowding,
    lets_go: bool,
) -> Result<(), NoMemory>
    requires stands { Stands search.old.base }
    requires equipped { Equipped search.old }
    requires ready { IsReady search.old.base }
    ensures goes_on { OnOk result (GoesOn search.old search.new) }
    ensures ready { OnOk result (IsReady search.new.base) }
    ensures entries { OnOk result (search.new.base.entries ≡ search.old.base.entries) }
    ensures kept { OnOk result (lets_go ≡ false → search.new.base.whole ≡ search.old.base.whole) }
    ensures whole { OnOk result (search.new.base.whole ≡ true → search.old.base.whole ≡ true) }
{
    if !lets_go {
        return Ok(());
    }
    if !crowding.is_due() {
        return Ok(());
    }
    forget(alloc, search)?;
    search.base.whole = false;
    Ok(())
}

/// What a search that ended says of its formula; nothing where clauses were let go and the budget is spent, or what was found
/// is no model of the formula.
fn conclude(
    alloc: Global,
    ended: Ended<'_>,
    eliminated: &Eliminated,
) -> Result<Option<Solved>, NoMemory>
    requires ended { (formula : Cnf) × (budget : ℕ) × EndedIs formula budget ended }
    ensures answers { IfOk result (λ found. IfSome found (λ solved. (formula : Cnf) (budget : ℕ) → EndedIs formula budget ended.entry → Solves formula budget solved)) }
    ensures some { IfOk result (λ found. KeepsAll ended.entry → IsSome found) }
    ensures undecided { IfOk result (λ found. IfSome found (IsOpenOnly ended.entry)) }
{
    match ended {
        Ended::Complete(search) => match model_of(alloc, search.get(), eliminated)? {
            Some(bits) => Ok(Some(Solved::Sat(bits))),
            None => Ok(None),
        },
        Ended::Doomed(search, number) => {
            let log = refutation(alloc, search.get(), number)?;
            Ok(Some(Solved::Unsat(log)))
        }
        Ended::Spent(search, _) => {
            if !search.get().base.whole {
                return Ok(None);
            }
            let log = search.get().base.entries.to_log(alloc)?;
            Ok(Some(Solved::Undecided(log)))
        }
    }
}

/// How far a search came by its next conflict.
pub(crate) enum Progress {
    /// All variables have a value.
    Complete,
    /// The clause of this number is false at level 0.
    Doomed(u32),
    /// A clause was learned.
    Learned,
}

/// Searches up to the next conflict, and learns from it.
fn advance(alloc: Global, search: &mut Search<'_>, pace: &mut Pace) -> Result<Progress, NoMemory>
    requires stands { Stands search.old.base }
    requires equipped { Equipped search.old }
    requires ready { IsReady search.old.base }
    ensures goes_on { OnOk result (GoesOn search.old search.new) }
    ensures whole { OnOk result (search.new.base.whole ≡ search.old.base.whole) }
    ensures advance { IfOk result (ProgressIs search.old search.new) }
{
    let Some(number) = search.run()? else {
        return Ok(Progress::Complete);
    };
    if search.base.trail.level() == 0 {
        return Ok(Progress::Doomed(number));
    }
    search.base.trail.tell_trail();
    search.learn(alloc, number)?;
    if !pace.is_due() {
        return Ok(Progress::Learned);
    }
    search.restart()?;
    Ok(Progress::Learned)
}

/// The model that the trail is; none where clauses were let go and it is no model of the formula.
fn model_of(
    alloc: Global,
    search: &Search<'_>,
    eliminated: &Eliminated,
) -> Result<Option<Row<bool>>, NoMemory>
    requires stands { Stands search.now.base }
    requires complete { IsComplete search.now.base }
    ensures length { IfOk result (λ found. IfSome found (λ bits. length bits ≡ search.now.base.formula.now.vars)) }
    ensures satisfies { IfOk result (λ found. IfSome found (λ bits. Satisfies (assignment_of bits) search.now.base.formula.now.clauses)) }
    ensures some { IfOk result (λ found. search.now.base.whole ≡ true → IsSome found) }
{
    if !search.base.whole {
        return restored(alloc, &search.base, eliminated);
    }
    search.base.trail.tell_trail();
    search.base.clauses.tell_named();
    let bits = model(alloc, &search.base.trail)?;
    Ok(Some(bits))
}

/// The refutation by a clause that is false at level 0: what is needed of the log that ends with the clause's own chain.
fn refutation(alloc: Global, search: &Search<'_>, number: u32) -> Result<Log, NoMemory>
    requires { IsDoomed search.now.base number }
    ensures refutes { IfOk result (λ log. IsRefutation search.now.base.formula.now.clauses log.entries) }
    ensures length { IfOk result (λ log. length log.entries ≤ length search.now.base.entries + 1) }
    ensures cut { IfOk result (λ log. IsCutOf (length search.now.base.formula.now.clauses) (length search.now.base.entries + 1) log.entries) }
{
    let log = whole_refutation(alloc, search, number)?;
    cut(alloc, search.base.formula, log.entries.as_slice())
}

/// The whole log of a search, and behind it a chain that resolves all literals of a false clause away at level 0.
fn whole_refutation(alloc: Global, search: &Search<'_>, number: u32) -> Result<Log, NoMemory>
    requires { IsDoomed search.now.base number }
    ensures refutes { IfOk result (λ log. IsRefutation search.now.base.formula.now.clauses log.entries) }
    ensures length { IfOk result (λ log. length log.entries ≡ length search.now.base.entries + 1) }
{
    let base = &search.base;
    let mut log = base.entries.to_log(alloc)?;
    let chain = refute(
        alloc,
        base.formula,
        log.entries.as_slice(),
        &base.trail,
        number,
    )?;
    log.entries.push(chain)?;
    Ok(log)
}
