//! Open gathers by their numbers.
ghost use Rattle.std.specs.Prelude.{◌≡◌, [], Some, None, IsSome, IfSome, OnOk, OnErr, option_copied, option_map};
ghost use Rattle.std.specs.List.Sorted.{IsStrictlySortedBy};
ghost use Rattle.std.specs.Map.{keys_of};
ghost use Rattle.std.specs.Ordering.{nat_cmp};
ghost use Rattle.iris_gather.specs.OpenGathers.{gather_at, unlent, with_lent, Exchanged};

use crate::gather::Gather;
use iris_tree::Mem;
use std::alloc::Global;
use std::collections::BTreeMap;
use std::marker::Model;

/// A gather that is open.
#[derive(Debug, Drop)]
pub struct OpenGather {
    pub gather: Gather,
    /// Its evaluation is made elsewhere.
    pub lent: bool,
}

/// Open gathers by their numbers.
#[derive(Debug, Drop)]
pub(crate) struct Entries {
    map: BTreeMap<u64, OpenGather>,
}

impl Model for Entries {
    ghost use Rattle.std.specs.Coded.{coded×, coded_list, coded_ℕ};
    ghost use Rattle.iris_gather.specs.contracts.entries.OpenGather as open_type;
    ghost use Rattle.iris_gather.specs.OpenGathers.{OpenGathers};

    ghost Value = { OpenGathers };

    ghost coded = { coded_list (coded× coded_ℕ open_type.the_row.coded) };

    ghost view = { λ e. e.map.entries };
}

impl Entries {
    // It takes no memory.
    pub(crate) fn new(alloc: Global) -> Entries
        ensures { result ≡ [] }
    {
        Entries {
            map: BTreeMap::new(alloc),
        }
    }

    pub(crate) fn get(&self, number: u64) -> Option<&OpenGather>
        ensures { option_copied result ≡ gather_at self.now number }
    {
        self.map.get(&number)
    }

    // Numbers rise. This call does nothing.
    pub(crate) fn keeps_order(&self)
        ensures { IsStrictlySortedBy nat_cmp (keys_of self.now) }
    {
        let _ = self.map.len();
    }

    // Each pending ask of a gather has its number once. This call does nothing.
    pub(crate) fn keeps_asks(&self, number: u64)
        ensures { IfSome (gather_at self.now number) (λ one. IsStrictlySortedBy nat_cmp (keys_of one.gather.pending)) }
    {
        if let Some(one) = self.map.get(&number) {
            let _ = one.gather.pending();
        }
    }

    // Adds a gather, which isn't lent.
    pub(crate) fn insert(&mut self, number: u64, gather: Gather) -> Mem<()>
        ensures ok { OnOk result (Exchanged self.old self.new number (Some (unlent gather))) }
        ensures err { OnErr result (self.new ≡ self.old) }
    {
        self.map.insert(
            number,
            OpenGather {
                gather,
                lent: false,
            },
        )?;
        Ok(())
    }

    // Puts a gather in the place of the one of that number. It isn't lent then. It takes no memory.
    pub(crate) fn replace(&mut self, number: u64, gather: Gather)
        requires { IsSome (gather_at self.old number) }
        ensures { Exchanged self.old self.new number (Some (unlent gather)) }
    {
        if let Some(one) = self.map.get_mut(&number) {
            *one = OpenGather {
                gather,
                lent: false,
            };
        }
    }

    // It takes no memory.
    pub(crate) fn remove(&mut self, number: u64) -> Option<OpenGather>
        ensures gather { result ≡ gather_at self.old number }
        ensures rest { Exchanged self.old self.new number None }
    {
        self.map.remove(&number)
    }

    // Says of the gather of that number whether it is lent.
    pub(crate) fn set_lent(&mut self, number: u64, lent: bool)
        ensures { Exchanged self.old self.new number (option_map (with_lent lent) (gather_at self.old number)) }
    {
        if let Some(one) = self.map.get_mut(&number) {
            one.lent = lent;
        }
    }
}
