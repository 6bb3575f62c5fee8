//! How much a descent loaded. Only contracts know it.
ghost use Rattle.std.specs.Prelude.{◌≡◌};
ghost use Rattle.aug_query.specs.Descend.{nothing_loaded, one_more_node, one_more_past, one_more_count, one_more_summary};

use crate::Calls;

/// How much was loaded of a tree. Only contracts read it: it takes no bytes, and its methods do nothing when they run.
#[derive(Drop)]
pub struct Loaded {
    /// Visited nodes, including the top.
    pub nodes: Calls,
    /// Counts of the members of a node.
    pub counts: Calls,
    /// Whole summaries of nodes.
    pub summaries: Calls,
    /// Nodes that were passed: those beside the visited node, if their members were counted on the way.
    pub passed: Calls,
}

impl Loaded {
    /// Nothing so far.
    pub fn nothing() -> Loaded
        ensures { result ≡ nothing_loaded }
    {
        Loaded {
            nodes: Calls::new(),
            counts: Calls::new(),
            summaries: Calls::new(),
            passed: Calls::new(),
        }
    }

    /// One more node.
    pub fn one_node(&mut self)
        ensures { self.new ≡ one_more_node self.old }
    {
        self.nodes = self.nodes.one_more();
    }

    /// One more node, beside one whose members were counted.
    pub fn one_past(&mut self)
        ensures { self.new ≡ one_more_past self.old }
    {
        self.nodes = self.nodes.one_more();
        self.passed = self.passed.one_more();
    }

    /// One more count.
    pub fn one_count(&mut self)
        ensures { self.new ≡ one_more_count self.old }
    {
        self.counts = self.counts.one_more();
    }

    /// One more summary.
    pub fn one_summary(&mut self)
        ensures { self.new ≡ one_more_summary self.old }
    {
        self.summaries = self.summaries.one_more();
    }
}
