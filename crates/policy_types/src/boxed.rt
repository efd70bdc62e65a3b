use crate::command::Command;
use crate::watcher::{Attention, NotReady, Report, Watcher};

/// A box of a watcher is a watcher, so that watchers of many types can stand in one list.
impl Watcher for Box<dyn Watcher + Send> {
    ghost noted = { λ it. (Watcher-box it).noted it.value };

    ghost last = { λ it. (Watcher-box it).last it.value };

    ghost spare = { λ it. (Watcher-box it).spare it.value };

    ghost stops = { λ it. (Watcher-box it).stops it.value };

    ghost number = { λ it. (Watcher-box it).number it.value };

    fn ready(&mut self) -> Result<(), NotReady> {
        (**self).ready()
    }

    fn note(&mut self, position: u32, command: &Command) -> Attention {
        (**self).note(position, command)
    }

    fn report(&self) -> Report {
        (**self).report()
    }
}
