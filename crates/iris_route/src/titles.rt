//! Titles of nodes by the names of these.
ghost use Rattle.std.specs.Prelude.{◌≡◌, [], OnOk, OnErr};
ghost use Rattle.std.specs.Cmp.Lexicographic.{pointwise};
ghost use Rattle.indexmap.specs.IndexMap.{insert_entry};
ghost use Rattle.iris_base.specs.NameOrder.{label_eq};
ghost use Rattle.iris_route.specs.Titles.{title_at, with_title, top_name};

use indexmap::IndexMap;
use iris_tree::{AgentId, Label, Mem};
use std::alloc::{AllocFailed, Global};
use std::marker::Model;

/// An owner and an epoch.
pub(crate) type Title = (AgentId, u64);

/// Titles by hashed names, in the order in which they were put in. A name is a list of labels, so that a
/// part of one is looked up as it stands. Contracts see the list of names and titles.
#[derive(Drop)]
pub(crate) struct Titles {
    entries: IndexMap<Vec<Label>, Title>,
}

impl Model for Titles {
    ghost use Rattle.std.specs.Prelude.{map};
    ghost use Rattle.iris_route.specs.Titles.{Titles as List};

    ghost Value = { List };

    ghost view = { λ t. map (λ e. (e.0.items, e.1)) t.entries.entries };
}

impl Titles {
    // No titles. It takes no memory.
    pub(crate) fn new(alloc: Global) -> Titles
        ensures { result ≡ [] }
    {
        Titles {
            entries: IndexMap::new(alloc),
        }
    }

    // The title at that name.
    pub(crate) fn get(&self, name: &[Label]) -> Option<Title>
        ensures { result ≡ title_at self.now name.now }
    {
        self.entries.get(name).copied()
    }

    // Puts a title in, also where the name has another.
    pub(crate) fn insert(&mut self, alloc: Global, name: &[Label], title: &Title) -> Mem<()>
        ensures ok { OnOk result (self.new ≡ insert_entry (pointwise label_eq) self.old name.now title.now) }
        ensures err { OnErr result (self.new ≡ self.old) }
    {
        self.entries.insert(Vec::from_slice(alloc, name)?, *title)?;
        Ok(())
    }

    // Puts a title in the place of the one that the name has. It takes no memory.
    pub(crate) fn set(&mut self, name: &[Label], title: &Title)
        ensures { self.new ≡ with_title self.old name.now title.now }
    {
        if let Some(old) = self.entries.get_mut(name) {
            *old = *title;
        }
    }

    // The first name; none where there is no title.
    pub(crate) fn first(&self) -> &[Label]
        ensures { result.now ≡ top_name self.now }
    {
        match self.entries.get_index(0) {
            Some((name, _)) => name.as_slice(),
            None => &[],
        }
    }
}
