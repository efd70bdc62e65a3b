ghost use Rattle.std.specs.Prelude.{◌≡◌, ◌<◌};
ghost use Rattle.std.specs.Option.{option_copied};
ghost use Rattle.xtbml_subset.specs.inside.Searches.{opens, sought_at, sought_under, tally_at, tally_under};
ghost use Rattle.xtbml_subset.specs.inside.Views.{sought_of, passing_of};

use crate::finder::{Seen, look};
use crate::found::Element;
use crate::passing::Passing;

/// The search for the first element of a level that matches, while the pieces go past.
#[derive(Clone, Copy)]
pub enum Search<'a> {
    /// None came so far.
    Seeking,
    Hit(Element<'a>),
    /// The level ended without one.
    Missed,
}

impl<'a> Search<'a> {
    /// Takes the next piece. The level is the number of open elements where its elements start.
    pub fn pass(&mut self, passing: &Passing<'a>, level: usize, wanted: Option<&[u8]>)
        ensures { sought_of self.new ≡ sought_at level (option_copied wanted.entry) (passing_of passing.now) (sought_of self.old) }
    {
        if passing.depth != level {
            return;
        }
        if let Search::Seeking = self {
            match look(passing.token, 0, wanted) {
                Seen::On(_) => {}
                Seen::Wanted(tag, is_open) => {
                    *self = Search::Hit(Element {
                        from: passing.from,
                        tag,
                        is_open,
                        rest: passing.after,
                    });
                }
                Seen::Closed => *self = Search::Missed,
            }
        }
    }

    /// Whether an element was found that has content.
    fn opens(&self) -> bool
        ensures { result ≡ opens (sought_of self.now) }
    {
        match self {
            Search::Hit(element) => element.is_open,
            Search::Seeking | Search::Missed => false,
        }
    }

    /// Takes the next piece of a search within the element that another search found.
    pub fn pass_under(
        &mut self,
        above: &Search<'a>,
        passing: &Passing<'a>,
        level: usize,
        name: &[u8],
    )
        ensures { sought_of self.new ≡ sought_under level name.now (passing_of passing.now) (sought_of above.now) (sought_of self.old) }
    {
        if above.opens() {
            self.pass(passing, level, Some(name));
        }
    }
}

/// How many matching elements of a level have gone past.
#[derive(Clone, Copy)]
pub struct Passed {
    pub count: usize,
    /// Whether the level has ended.
    pub is_over: bool,
}

impl Passed {
    /// Takes the next piece.
    fn pass(&mut self, passing: &Passing<'_>, level: usize, wanted: Option<&[u8]>)
        requires { self.old.count < 4194304 }
        ensures { self.new ≡ tally_at level (option_copied wanted.entry) (passing_of passing.now) self.old }
    {
        if self.is_over {
            return;
        }
        let mut one = Search::Seeking;
        one.pass(passing, level, wanted);
        match one {
            Search::Seeking => {}
            Search::Hit(_) => self.count += 1,
            Search::Missed => self.is_over = true,
        }
    }

    /// Takes the next piece, if the level is within the element that a search found.
    pub fn pass_under(
        &mut self,
        above: &Search<'_>,
        passing: &Passing<'_>,
        level: usize,
        name: &[u8],
    )
        requires { self.old.count < 4194304 }
        ensures { self.new ≡ tally_under level name.now (passing_of passing.now) (sought_of above.now) self.old }
    {
        if above.opens() {
            self.pass(passing, level, Some(name));
        }
    }
}
