//! The order in which copies were used.
ghost use Rattle.std.specs.Prelude.{◌≡◌, [], ◌∷◌, ◌++◌, false, length, Some, None, IsSome, IsOk, IfOk, OnOk, OnErr, option_to_list, is_some, if◌then◌else◌};
ghost use Rattle.std.specs.List.{IsDistinct};
ghost use Rattle.std.specs.Cmp.Lexicographic.{pointwise};
ghost use Rattle.iris_base.specs.NameOrder.{label_eq};
ghost use Rattle.iris_cache.specs.Order.{lists, without, without_any, in_front, last_of};
ghost use Rattle.iris_cache.specs.Ready.{is_ready};

use iris_tree::{Label, Mem, Name};
use lru::LruCache;
use std::alloc::{AllocError, AllocFailed, Global};
use std::marker::Model;

/// Names by the time of their last use, the one used last in front, and a name that is ready to be put in
/// front without memory, if there is one. That name lies among the others and is none of them. Each
/// look-up is one by the hashed name. Contracts see it as the `Recent` of `specs/Ready.antt`.
#[derive(Debug, Drop)]
pub(crate) struct Recency {
    alloc: Global,
    names: LruCache<Name, ()>,
    ready: Option<Name>,
}

impl Model for Recency {
    ghost use Rattle.iris_base.specs.contracts.name.Label as label_type;
    ghost use Rattle.iris_cache.specs.Ready.{Recent, recent_code, order_among, IsOrderly};

    ghost Value = { Recent };

    ghost coded = { recent_code label_type.the_row.coded };

    ghost view = { λ r. record { order = order_among r.names.entries r.ready; ready = r.ready } };

    ghost invariant = { λ r. IsOrderly r.names r.ready };
}

impl Recency {
    pub(crate) fn new(alloc: Global) -> Mem<Recency>
        ensures { IfOk result (λ recency. recency ≡ record { order = []; ready = None }) }
    {
        Ok(Recency {
            alloc,
            names: LruCache::unbounded(alloc)?,
            ready: None,
        })
    }

    // The number of names, without the ready one.
    pub(crate) fn len(&self) -> usize
        ensures len { result ≡ length self.now.order }
        ensures once { IsDistinct (pointwise label_eq) self.now.order }
    {
        let all = self.names.len();
        if self.ready.is_some() { all - 1 } else { all }
    }

    fn is_ready(&self, name: &Name) -> bool
        ensures { result ≡ is_ready self.now.ready name.now }
    {
        match &self.ready {
            Some(ready) => ready == name,
            None => false,
        }
    }

    pub(crate) fn contains(&self, name: &Name) -> bool
        ensures { result ≡ lists self.now.order name.now }
    {
        self.names.contains(name) && !self.is_ready(name)
    }

    // Puts a name in front that is there.
    pub(crate) fn touch(&mut self, name: &Name)
        ensures order { self.new.order ≡ (if lists self.old.order name.now then in_front self.old.order name.now else self.old.order) }
        ensures len { length self.new.order ≡ length self.old.order }
        ensures ready { self.new.ready ≡ self.old.ready }
    {
        if !self.is_ready(name) {
            self.names.promote(name);
        }
    }

    // Takes a name out, if it is there.
    pub(crate) fn remove(&mut self, name: &Name)
        ensures order { self.new.order ≡ without self.old.order name.now }
        ensures ready { self.new.ready ≡ self.old.ready }
    {
        if !self.is_ready(name) {
            self.names.pop(name);
        }
    }

    // Makes a name ready in place of the one that was.
    pub(crate) fn prepare(&mut self, name: &Name) -> Mem<()>
        requires { lists self.old.order name.now ≡ false }
        ensures ok { OnOk result (self.new ≡ record { order = self.old.order; ready = Some name.now }) }
        ensures err { OnErr result (self.new ≡ self.old) }
        ensures ready { self.old.ready ≡ Some name.now → IsOk result }
    {
        if self.is_ready(name) {
            return Ok(());
        }
        let key = name.copy()?;
        let ready = name.copy()?;
        let _ = self.names.len();
        self.names.put(key, ())?;
        if let Some(old) = self.ready.replace(ready) {
            self.names.pop(&old);
        }
        Ok(())
    }

    // Puts the ready name in front.
    pub(crate) fn admit(&mut self)
        ensures { self.new ≡ record { order = option_to_list self.old.ready ++ self.old.order; ready = None } }
    {
        if let Some(name) = self.ready.take() {
            self.names.promote(&name);
        }
    }

    // Makes no name ready.
    fn unprepare(&mut self)
        ensures { self.new ≡ record { order = self.old.order; ready = None } }
    {
        if let Some(name) = self.ready.take() {
            self.names.pop(&name);
        }
    }

    // Takes the last name out. No name is ready then.
    pub(crate) fn pop_last(&mut self) -> Option<Name>
        ensures last { result ≡ last_of self.old.order }
        ensures order { self.new.order ≡ without_any self.old.order result }
    {
        self.unprepare();
        let (name, ()) = self.names.pop_lru()?;
        Some(name)
    }

    // The names in their order.
    pub(crate) fn names(&self) -> Mem<Vec<Name>>
        ensures { IfOk result (λ names. names.items ≡ self.now.order) }
    {
        let mut names = Vec::new(self.alloc);
        for (name, ()) in self.names.iter() {
            if !self.is_ready(name) {
                names.push(name.copy()?)?;
            }
        }
        Ok(names)
    }
}
