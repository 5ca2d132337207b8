//! The order in which variables are decided, by their activity in conflicts (VSIDS of Chaff: Moskewicz and others, 2001, in
//! MiniSat's form). Free: contracts see only that it holds variables.
ghost use Rattle.std.specs.Prelude.{◌≡◌, ◌+◌, ◌<◌, ◌≤◌, length, IfOk, OnOk, IfSome};
ghost use Rattle.kb_heuristics.specs.Order.{HavePlaces};

use crate::parameters::{
    ACTIVITY_FIRST, ACTIVITY_GROWTH, ACTIVITY_LEAST, ACTIVITY_LIMIT, ACTIVITY_SCALE,
};
use kb_propagate::NoMemory;
use std::alloc::Global;
use std::marker::Model;

/// The place of a variable that is not in the heap.
const ABSENT: usize = usize::MAX;

/// Variables by activity, the most active first: how often they took part in a conflict, where later conflicts count for more
/// (the decaying sums of Chaff, in MiniSat's form with a growing increment). A binary heap with the place of each variable.
/// Contracts see the number of variables.
#[derive(Drop)]
pub struct ActivityOrder {
    limit: u32,
    heap: Vec<u32>,
    places: Vec<usize>,
    activities: Vec<u64>,
    increment: u64,
}

impl Model for ActivityOrder {
    ghost use Rattle.std.specs.Prelude.{ℕ, ◌≡◌, ◌+◌, length};
    ghost use Rattle.kb_heuristics.specs.Order.{HavePlaces};

    ghost Value = { ℕ };

    ghost view = { λ o. o.limit };

    ghost invariant = { λ o. record {
      variables : HavePlaces (o.limit + 1) o.heap.items;
      places : length o.places.items ≡ o.limit + 1;
      activities : length o.activities.items ≡ o.limit + 1;
    } };
}

impl ActivityOrder {
    /// All variables from 1 to `vars`, none of which took part in a conflict yet: those of `first` in its order, and behind them
    /// the others by rising number. What stands in `first` again, or is no such variable, has no place of its own.
    pub fn new(alloc: Global, vars: u32, first: &[u32]) -> Result<ActivityOrder, NoMemory>
        ensures { IfOk result (λ order. order ≡ vars) }
    {
        let heap = in_order(alloc, vars, first)?;
        let mut places = vec![in alloc; ABSENT; vars as usize + 1]?;
        let mut activities = vec![in alloc; 0; vars as usize + 1]?;
        for (place, variable) in heap.iter().enumerate() {
            places[*variable as usize] = place;
            activities[*variable as usize] = (heap.len() - place) as u64;
        }
        Ok(ActivityOrder {
            limit: vars,
            heap,
            places,
            activities,
            increment: ACTIVITY_FIRST,
        })
    }

    pub fn vars(&self) -> u32
        ensures { result ≡ self.now }
    {
        self.limit
    }

    /// Takes out the most active variable.
    pub fn pop(&mut self) -> Option<u32>
        ensures variable { IfSome result (λ v. (0 < v) × (v ≤ self.old)) }
        ensures vars { self.new ≡ self.old }
    {
        let last = self.heap.pop()?;
        self.places[last as usize] = ABSENT;
        if self.heap.is_empty() {
            return Some(last);
        }
        let top = self.heap[0];
        self.places[top as usize] = ABSENT;
        sift_down(
            self.heap.as_mut_slice(),
            self.places.as_mut_slice(),
            self.activities.as_slice(),
            last,
        );
        Some(top)
    }

    /// Puts a variable in, if it is not there.
    pub fn insert(&mut self, variable: u32) -> Result<(), NoMemory>
        requires above { 0 < variable }
        requires below { variable ≤ self.old }
        ensures { self.new ≡ self.old }
    {
        if self.places[variable as usize] != ABSENT {
            return Ok(());
        }
        let place = self.heap.len();
        self.heap.push(variable)?;
        sift_up(
            self.heap.as_mut_slice(),
            self.places.as_mut_slice(),
            self.activities.as_slice(),
            place,
        );
        Ok(())
    }

    /// Raises the activity of a variable.
    pub fn bump(&mut self, variable: u32)
        requires { variable ≤ self.old }
        ensures { self.new ≡ self.old }
    {
        let raised = self.activities[variable as usize].saturating_add(self.increment);
        self.activities[variable as usize] = raised;
        if raised > ACTIVITY_LIMIT {
            self.rescale();
        }
        let place = self.places[variable as usize];
        if place < self.heap.len() {
            sift_up(
                self.heap.as_mut_slice(),
                self.places.as_mut_slice(),
                self.activities.as_slice(),
                place,
            );
        }
    }

    /// Makes later conflicts count for more, by a sixteenth.
    pub fn decay(&mut self)
        ensures { self.new ≡ self.old }
    {
        self.increment = self
            .increment
            .saturating_add(self.increment / ACTIVITY_GROWTH);
        if self.increment > ACTIVITY_LIMIT {
            self.rescale();
        }
    }

    /// Scales all activities down alike, which keeps their order but for what becomes equal.
    fn rescale(&mut self)
        ensures { self.new ≡ self.old }
    {
        for activity in self.activities.iter_mut() {
            *activity >>= ACTIVITY_SCALE;
        }
        self.increment = (self.increment >> ACTIVITY_SCALE).max(ACTIVITY_LEAST);
    }
}

// The variables from 1 to `vars`, each once, those of `first` before the others.
fn in_order(alloc: Global, vars: u32, first: &[u32]) -> Result<Vec<u32>, NoMemory>
    ensures { IfOk result (λ heap. HavePlaces (vars + 1) heap.items) }
{
    let mut listed = Listed {
        variables: Vec::with_capacity(alloc, vars as usize)?,
        is_there: vec![in alloc; false; vars as usize + 1]?,
    };
    listed.push_all(first)?;
    listed.push_up_to(vars)?;
    Ok(listed.variables)
}

// Variables, each at most once, and which of them are there.
#[derive(Drop)]
struct Listed {
    variables: Vec<u32>,
    is_there: Vec<bool>,
}

impl Listed {
    fn push_all(&mut self, variables: &[u32]) -> Result<(), NoMemory>
        requires { HavePlaces (length self.old.is_there.items) self.old.variables.items }
        ensures places { OnOk result (HavePlaces (length self.new.is_there.items) self.new.variables.items) }
        ensures size { OnOk result (length self.new.is_there.items ≡ length self.old.is_there.items) }
    {
        for variable in variables {
            self.push(*variable)?;
        }
        Ok(())
    }

    fn push_up_to(&mut self, vars: u32) -> Result<(), NoMemory>
        requires { HavePlaces (length self.old.is_there.items) self.old.variables.items }
        ensures places { OnOk result (HavePlaces (length self.new.is_there.items) self.new.variables.items) }
        ensures size { OnOk result (length self.new.is_there.items ≡ length self.old.is_there.items) }
    {
        for variable in 1..=vars {
            self.push(variable)?;
        }
        Ok(())
    }

    // Adds what is a variable with a place, and not there yet.
    fn push(&mut self, variable: u32) -> Result<(), NoMemory>
        requires { HavePlaces (length self.old.is_there.items) self.old.variables.items }
        ensures places { OnOk result (HavePlaces (length self.new.is_there.items) self.new.variables.items) }
        ensures size { OnOk result (length self.new.is_there.items ≡ length self.old.is_there.items) }
    {
        if variable == 0 {
            return Ok(());
        }
        if variable as usize >= self.is_there.len() {
            return Ok(());
        }
        if self.is_there[variable as usize] {
            return Ok(());
        }
        self.is_there[variable as usize] = true;
        self.variables.push(variable)?;
        Ok(())
    }
}

/// Moves the variable at a place towards the front, past those that are less active.
fn sift_up(heap: &mut [u32], places: &mut [usize], activities: &[u64], start: usize)
    requires inside { start < length heap.old }
    requires variables { HavePlaces (length activities.now) heap.old }
    requires places { length places.old ≡ length activities.now }
    ensures { HavePlaces (length activities.now) heap.new }
{
    let variable = heap[start];
    let activity = activities[variable as usize];
    let mut place = start;
    while place > 0 {
        let parent = (place - 1) / 2;
        let above = heap[parent];
        if activities[above as usize] >= activity {
            break;
        }
        heap[place] = above;
        places[above as usize] = place;
        place = parent;
    }
    heap[place] = variable;
    places[variable as usize] = place;
}

/// Puts a variable in front, in place of the one there, and moves it towards the end, past those that are more active.
fn sift_down(heap: &mut [u32], places: &mut [usize], activities: &[u64], variable: u32)
    requires inside { 0 < length heap.old }
    requires above { 0 < variable }
    requires below { variable < length activities.now }
    requires variables { HavePlaces (length activities.now) heap.old }
    requires places { length places.old ≡ length activities.now }
    ensures { HavePlaces (length activities.now) heap.new }
{
    let activity = activities[variable as usize];
    let mut place = 0;
    while let Some(child) = more_active_child(heap, activities, place) {
        let below = heap[child];
        if activities[below as usize] <= activity {
            break;
        }
        heap[place] = below;
        places[below as usize] = place;
        place = child;
    }
    heap[place] = variable;
    places[variable as usize] = place;
}

/// The place of the more active one of the two variables below a place.
fn more_active_child(heap: &[u32], activities: &[u64], place: usize) -> Option<usize>
    requires inside { place < length heap.now }
    requires variables { HavePlaces (length activities.now) heap.now }
    ensures { IfSome result (λ child. (place < child) × (child < length heap.now)) }
{
    let left = 2 * place + 1;
    if left >= heap.len() {
        return None;
    }
    let right = left + 1;
    if right >= heap.len() {
        return Some(left);
    }
    let is_right = activities[heap[right] as usize] > activities[heap[left] as usize];
    Some(if is_right { right } else { left })
}
