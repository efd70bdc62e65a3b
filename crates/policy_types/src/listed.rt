ghost use Rattle.std.specs.Prelude.{◌≡◌};

use std::marker::Model;

/// Items in order. Contracts see them as their list.
#[derive(Drop)]
pub struct Listed<T: Drop> {
    list: Vec<T>,
}

impl<T: Drop> Model for Listed<T> {
    ghost use Rattle.std.specs.Prelude.{List};

    ghost Value = { List T };

    ghost view = { λ l. l.list.items };
}

impl<T: Drop> Listed<T> {
    pub fn new(list: Vec<T>) -> Listed<T>
        ensures { result ≡ list.items }
    {
        Listed { list }
    }

    pub fn as_slice(&self) -> &[T]
        ensures { result.now ≡ self.now }
    {
        self.list.as_slice()
    }

    pub fn into_vec(self) -> Vec<T>
        ensures { result.items ≡ self }
    {
        let Listed { list } = self;
        list
    }
}
