//! Histories: lists that grow at their ends, and are copied in constant time.
ghost use Rattle.std.specs.Prelude.{◌≡◌, ℕ, ◌<◌, ◌++◌, [], ◌∷◌, List, Option, length, replicate, slice_index_or, slice_set, IfOk, OnErr, OnOk};

use lx_base::{Memory, Sequence};
use std::alloc::Global;
use std::marker::Model;

/// An entry of a history, behind those of another node.
#[derive(Clone, Copy)]
pub(crate) struct Node {
    before: Option<usize>,
    entry: Option<u64>,
}

/// The histories by their numbers, which contracts see as a list of lists.
///
/// A history is the node of its last entry, so that copying one copies a number.
#[derive(Drop)]
pub(crate) struct Histories {
    lasts: Vec<Option<usize>>,
    nodes: Vec<Node>,
}

impl Model for Histories {
    ghost use Rattle.std.specs.Prelude.{List, Option, ℕ, map};

    ghost Value = { List (List (Option ℕ)) };

    ghost use Rattle.lx_step.specs.Nodes.{contents, content_at, AreBelow};

    ghost view = { λ histories. map (content_at (contents histories.nodes.items)) histories.lasts.items };

    ghost invariant = { λ histories. AreBelow histories.lasts.items histories.nodes.items };
}

impl Histories {
    /// So many empty histories.
    pub(crate) fn new(alloc: Global, count: usize) -> Result<Histories, Memory>
        ensures { IfOk result (λ histories. histories ≡ replicate count []) }
    {
        Ok(Histories {
            lasts: vec![in alloc; None; count]?,
            nodes: Vec::new(alloc),
        })
    }

    /// How many there are.
    pub(crate) fn len(&self) -> usize
        ensures { result ≡ length self.now }
    {
        self.lasts.len()
    }

    /// Empties all histories.
    pub(crate) fn clear(&mut self)
        ensures { self.new ≡ replicate (length self.old) [] }
    {
        self.nodes.clear();
        self.lasts.fill(None);
    }

    /// Appends an entry to a history.
    pub(crate) fn append(&mut self, history: usize, entry: Option<u64>) -> Result<(), Memory>
        requires { history < length self.old }
        ensures appended { OnOk result (self.new ≡ slice_set self.old history (slice_index_or self.old history [] ++ entry ∷ [])) }
        ensures kept { OnErr result (self.new ≡ self.old) }
        ensures count { length self.new ≡ length self.old }
    {
        let node = self.nodes.len();
        self.nodes.push(Node {
            before: self.lasts[history],
            entry,
        })?;
        self.lasts[history] = Some(node);
        Ok(())
    }

    /// Puts one history into another.
    pub(crate) fn copy(&mut self, history: usize, source: usize)
        requires history { history < length self.old }
        requires source { source < length self.old }
        ensures { self.new ≡ slice_set self.old history (slice_index_or self.old source []) }
    {
        self.lasts[history] = self.lasts[source];
    }

    /// The entries of a history.
    pub(crate) fn entries(
        &self,
        alloc: Global,
        history: usize,
    ) -> Result<Sequence<Option<u64>>, Memory>
        requires { history < length self.now }
        ensures { IfOk result (λ entries. entries ≡ slice_index_or self.now history []) }
    {
        let mut entries = Vec::new(alloc);
        let mut last = self.lasts[history];
        while let Some(place) = last {
            let node = self.nodes[place];
            entries.push(node.entry)?;
            last = node.before;
        }
        entries.reverse();
        Ok(Sequence::from_vec(entries))
    }
}
