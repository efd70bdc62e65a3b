ghost use Rattle.std.specs.Prelude.{◌≡◌, ◌<◌};
ghost use Rattle.xtbml_subset.specs.inside.Searches.{path_after, no_path};
ghost use Rattle.xtbml_subset.specs.inside.Views.{path_of, passing_of};

use crate::passing::Passing;
use crate::search::{Passed, Search};

/// The elements from which a table is read, each the first with its name in the one before it.
#[derive(Clone, Copy)]
pub struct ElementPath<'a> {
    pub root: Search<'a>,
    pub table: Search<'a>,
    pub about: Search<'a>,
    pub values: Search<'a>,
    pub axis: Search<'a>,
    /// The axis in the axis.
    pub inner: Search<'a>,
    /// The first rate of the axis.
    pub first: Search<'a>,
    /// How many rates the axis has.
    pub tally: Passed,
}

impl<'a> ElementPath<'a> {
    pub fn new() -> ElementPath<'a>
        ensures { path_of result ≡ no_path }
    {
        ElementPath {
            root: Search::Seeking,
            table: Search::Seeking,
            about: Search::Seeking,
            values: Search::Seeking,
            axis: Search::Seeking,
            inner: Search::Seeking,
            first: Search::Seeking,
            tally: Passed {
                count: 0,
                is_over: false,
            },
        }
    }

    /// Takes the next piece.
    pub fn pass(&mut self, passing: &Passing<'a>)
        requires { self.old.tally.count < 4194304 }
        ensures { path_of self.new ≡ path_after (passing_of passing.now) (path_of self.old) }
    {
        if passing.depth > 4 {
            return;
        }
        self.inner.pass_under(&self.axis, passing, 4, b"Axis");
        self.first.pass_under(&self.axis, passing, 4, b"Y");
        self.tally.pass_under(&self.axis, passing, 4, b"Y");
        self.axis.pass_under(&self.values, passing, 3, b"Axis");
        self.values.pass_under(&self.table, passing, 2, b"Values");
        self.about.pass_under(&self.table, passing, 2, b"MetaData");
        self.table.pass_under(&self.root, passing, 1, b"Table");
        self.root.pass(passing, 0, None);
    }
}
