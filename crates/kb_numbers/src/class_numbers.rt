//! The members of a class by numbers, and tables of their places.
ghost use Rattle.std.specs.Prelude.{◌≡◌, ◌+◌, ℕ, IfOk};
ghost use Rattle.std.specs.Option.{option_map};
ghost use Rattle.kb_class.specs.Loaded.{told_at};
ghost use Rattle.kb_numbers.specs.Pairs.{first_place};

use crate::pairs::{EntryNumbers, Pair, first_places};
use kb_names::NoMemory;
use std::alloc::Global;
use std::collections::HashMap;
use std::marker::Model;

/// The members of a class by numbers, with tables of the places of its methods and of its fields. Contracts see the numbers.
#[derive(Drop)]
pub struct ClassNumbers {
    // The number of its first method among the methods of all classes.
    first: u32,
    methods: Vec<Pair>,
    fields: Vec<Pair>,
    entries: Vec<Option<EntryNumbers>>,
    method_places: HashMap<Pair, u32>,
    field_places: HashMap<Pair, u32>,
}

impl Model for ClassNumbers {
    ghost use Rattle.std.specs.Prelude.{◌+◌, ◌<◌, ◌^◌, length};
    ghost use Rattle.kb_numbers.specs.Members.{MemberNumbers};

    ghost Value = { MemberNumbers };

    ghost use Rattle.kb_numbers.specs.Pairs.{HasFirsts};

    ghost view = { λ c. record { first = c.first; methods = c.methods.items; fields = c.fields.items; entries = c.entries.items } };

    ghost invariant = { λ c. HasFirsts c.method_places c.methods.items × HasFirsts c.field_places c.fields.items × (c.first + length c.methods.items < 2 ^ 32) };
}

impl ClassNumbers {
    /// A class whose first method has that number. Methods without numbers of 32 bits count as out of memory.
    pub(crate) fn new(
        alloc: Global,
        first: u32,
        methods: Vec<Pair>,
        fields: Vec<Pair>,
        entries: Vec<Option<EntryNumbers>>,
    ) -> Result<ClassNumbers, NoMemory>
        ensures { IfOk result (λ own. own ≡ record { first = first; methods = methods.items; fields = fields.items; entries = entries.items }) }
    {
        if methods.len() > (u32::MAX - first) as usize {
            return Err(NoMemory);
        }
        let method_places = first_places(alloc, methods.as_slice())?;
        let field_places = first_places(alloc, fields.as_slice())?;
        Ok(ClassNumbers {
            first,
            methods,
            fields,
            entries,
            method_places,
            field_places,
        })
    }

    /// The methods that it declares, in file order.
    pub fn methods(&self) -> &[Pair]
        ensures { result.now ≡ self.now.methods }
    {
        self.methods.as_slice()
    }

    /// The fields that it declares, in file order.
    pub fn fields(&self) -> &[Pair]
        ensures { result.now ≡ self.now.fields }
    {
        self.fields.as_slice()
    }

    /// What the entry of that number names, if it names a member.
    pub fn entry(&self, entry: u16) -> Option<EntryNumbers>
        ensures { result ≡ told_at self.now.entries entry }
    {
        match self.entries.get(entry as usize) {
            Some(told) => *told,
            None => None,
        }
    }

    /// The place of the method of that pair among those that it declares: a look into a table.
    pub fn method_place(&self, pair: Pair) -> Option<u32>
        ensures { result ≡ first_place self.now.methods pair }
    {
        self.method_places.get(&pair).copied()
    }

    /// The number of that method among the methods of all classes.
    pub fn method(&self, pair: Pair) -> Option<u32>
        ensures { result ≡ option_map (λ (place : ℕ). self.now.first + place) (first_place self.now.methods pair) }
    {
        let place = self.method_place(pair)?;
        Some(self.first + place)
    }

    /// The place of the field of that pair among those that it declares: a look into a table.
    pub fn field_place(&self, pair: Pair) -> Option<u32>
        ensures { result ≡ first_place self.now.fields pair }
    {
        self.field_places.get(&pair).copied()
    }
}
