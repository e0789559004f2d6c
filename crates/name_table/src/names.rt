// Names and their places.
ghost use Rattle.std.specs.Prelude.{◌≡◌, ◌++◌, ◌<◌, [], ◌∷◌, ℕ, List, length, position, bytes_eq, OnOk, IfSome};
ghost use Rattle.std.specs.List.{list_any, position_or_len};
ghost use Rattle.indexmap.specs.IndexMap.{spare};
ghost use Rattle.name_table.specs.Names.{noted, place_in, place_or};

use indexmap::IndexMap;
use py_base::{OutOfMemory, Text};
use sqlite_items::Items;
use std::alloc::Global;
use std::marker::Model;

/// Names in their order, each with the first of its places. Contracts see the list of the names.
#[derive(Debug, Drop)]
pub struct Names {
    list: Items<Text>,
    places: IndexMap<Vec<u8>, usize>,
}

impl Model for Names {
    ghost use Rattle.std.specs.Prelude.{◌≡◌, ℕ, List, bytes_eq, position};
    ghost use Rattle.name_table.specs.Names.{place_in};

    ghost Value = { List (List ℕ) };

    ghost view = { λ t. t.list };

    ghost invariant = { λ t. (n : List ℕ) → place_in t.places n ≡ position (bytes_eq n) t.list };
}

// Gives a name its place, where it has none.
#[tactic(auto, using(crate::proofs::Places::kept))]
fn note_place(places: &mut IndexMap<Vec<u8>, usize>, name: Vec<u8>, place: usize)
    requires { 0 < spare places.old }
    ensures { (n : List ℕ) → place_in places.new n ≡ place_or (place_in places.old n) (bytes_eq n name.items) place }
{
    if places.contains_key(&name) {
        return;
    }
    match places.insert(name, place) {
        Ok(_) => {}
        Err(_) => unreachable!(),
    }
}

impl Names {
    /// No names.
    pub fn new(alloc: Global) -> Names
        ensures { result ≡ [] }
    {
        Names {
            list: Items::new(alloc),
            places: IndexMap::new(alloc),
        }
    }

    /// How many names stand in the list, each counted as often as it stands there.
    pub fn len(&self) -> usize
        ensures { result ≡ length self.now }
    {
        self.list.len()
    }

    /// The names in their order.
    pub fn as_slice(&self) -> &[Text]
        ensures { result.now ≡ self.now }
    {
        self.list.as_slice()
    }

    /// The list of the names, without their places.
    pub fn into_list(self) -> Items<Text>
        ensures { result ≡ self }
    {
        let Names { list, places: _ } = self;
        list
    }

    /// The first place of a name.
    pub fn position(&self, name: &[u8]) -> Option<usize>
        ensures at { result ≡ position (bytes_eq name.now) self.now }
        ensures within { IfSome result (λ at. at < length self.now) }
    {
        self.places.get(name).copied()
    }

    /// The first place of a name, or the length where it has none.
    #[tactic(auto, using(crate::proofs::Places::or_length))]
    pub fn position_or_len(&self, name: &[u8]) -> usize
        ensures { result ≡ position_or_len (bytes_eq name.now) self.now }
    {
        self.position(name).unwrap_or(self.len())
    }

    /// Whether the name is among these.
    #[tactic(auto, using(crate::proofs::Places::is_found))]
    pub fn contains(&self, name: &[u8]) -> bool
        ensures { result ≡ list_any (bytes_eq name.now) self.now }
    {
        self.position(name).is_some()
    }

    /// Adds a name at the end, also where it is there.
    pub fn push(&mut self, alloc: Global, name: &[u8]) -> Result<(), OutOfMemory>
        ensures { OnOk result (self.new ≡ self.old ++ name.now ∷ []) }
    {
        let key = name.to_vec(alloc)?;
        let text = Text::of(name.to_vec(alloc)?);
        let place = self.list.len();
        self.places.reserve(1)?;
        self.list.push(text)?;
        note_place(&mut self.places, key, place);
        Ok(())
    }

    /// Adds a name at the end, where it isn't there.
    pub fn note(&mut self, alloc: Global, name: &[u8]) -> Result<(), OutOfMemory>
        ensures { OnOk result (self.new ≡ noted self.old name.now) }
    {
        if self.contains(name) {
            return Ok(());
        }
        self.push(alloc, name)
    }
}
